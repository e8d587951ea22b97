ghost use Rattle.std.specs.Prelude.{◌≡◌};
ghost use Rattle.sa_pred.specs.Order.{BytesOrderTexts, text_order};

use sa_text::Text;
use std::cmp::Ordering;

/// How two texts are ordered: by their lists of code points, lexicographically, a prefix first, as Python
/// orders `str`. Only their UTF-8 is looked at, which is ordered as they are.
pub fn compare(a: &Text, b: &Text) -> Ordering
    ensures { result ≡ text_order a.now b.now }
{
    a.as_bytes().cmp(b.as_bytes())
}

/// UTF-8 is ordered by its bytes as texts are by their code points. The call does nothing; its contract is
/// the law, for proofs to cite.
pub fn bytes_order_texts()
    ensures { BytesOrderTexts }
{}
