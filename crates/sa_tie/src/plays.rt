//! How views are split and joined, and what a step on a word tells.
use crate::view::View;
use atomic_table::{Join, Play, Split};

/// Both ends become two.
pub struct Ends;

impl Split<View> for Ends {
    ghost use Rattle.sa_tie.specs.Views.{near_end, far_end};

    ghost left = { λ _. near_end };

    ghost right = { λ _. far_end };
}

/// A note is split off the near end, and joined into the far end.
pub struct Note;

impl Split<View> for Note {
    ghost use Rattle.sa_tie.specs.Views.{note};

    ghost left = { λ near. near };

    ghost right = { note };
}

impl Join<View> for Note {
    ghost use Rattle.sa_tie.specs.Views.{noted, spent};

    ghost both = { noted };

    ghost spent = { spent };
}

/// A receipt is split off the far end, and joined into the near end.
pub struct Receipt;

impl Split<View> for Receipt {
    ghost use Rattle.sa_tie.specs.Views.{receipt};

    ghost left = { λ far. far };

    ghost right = { receipt };
}

impl Join<View> for Receipt {
    ghost use Rattle.sa_tie.specs.Views.{receipted, spent};

    ghost both = { receipted };

    ghost spent = { spent };
}

/// A key is announced at the near end.
pub struct Announce;

impl Play<(), View> for Announce {
    ghost use Rattle.std.specs.Prelude.{◌≡◌};
    ghost use Rattle.sa_tie.specs.Views.{announced};

    ghost then = { λ step near _ after. after.0 ≡ announced near.0 step.first };
}

/// A key is linked at the far end.
pub struct Link;

impl Play<(), View> for Link {
    ghost use Rattle.std.specs.Prelude.{◌≡◌};
    ghost use Rattle.sa_tie.specs.Views.{linked};

    ghost then = { λ step far _ after. after.0 ≡ linked far.0 step.first };
}

/// An end looks at what it took in.
pub struct Look;

impl Play<(), View> for Look {
    ghost use Rattle.std.specs.Prelude.{◌≡◌};
    ghost use mathlib.Core.List.{IsPrefix};

    ghost then = { λ _ end _ after. (after.0 ≡ end.0) × IsPrefix end.0.taken end.0.keys };
}
