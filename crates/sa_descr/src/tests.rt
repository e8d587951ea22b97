use crate::{CombineError, Descr, Miss, MissGroup, NaRule, combine, miss_of};
use sa_text::Text;
use std::alloc::Global;
use std::test::Fail;

/// The rule of this text.
fn text_rule(alloc: Global, bytes: &[u8]) -> Result<NaRule, Fail> {
    Ok(NaRule::Txt(Text::from_bytes(alloc, bytes)?))
}

/// A descriptor with this rule.
fn descr(na: NaRule) -> Descr {
    Descr { na, coerce: true }
}

#[test]
fn rules_combine_or_clash(rt: HostRuntime) -> Result<(), Fail> {
    let alloc = rt.alloc();
    let table = [
        descr(NaRule::Absent),
        descr(NaRule::Nan),
        descr(text_rule(alloc, b"-")?),
        descr(text_rule(alloc, b"-")?),
        descr(text_rule(alloc, b"+")?),
        descr(NaRule::Other),
    ];
    let clash = |first, second| Err(CombineError::Clash { first, second });
    let rows: [(&[u8], Result<usize, CombineError>); 10] = [
        (&[], Ok(0)),
        (&[0, 0], Ok(0)),
        (&[0, 1, 1], Ok(1)),
        (&[5, 0, 5], Ok(5)),
        (&[0, 2, 3], Ok(2)),
        (&[0, 1, 0, 2], clash(1, 3)),
        (&[2, 3, 4, 1], clash(0, 2)),
        (&[4, 2], clash(0, 1)),
        (&[1, 5], clash(0, 1)),
        (&[5, 0, 1, 2], clash(0, 2)),
    ];
    for (numbers, want) in rows {
        assert!(rt; numbers.len() < 5);
        assert!(rt; numbers.iter().all(|n| *n < 6));
        let got = combine(alloc, &table, numbers);
        match (got, want) {
            (Ok(rule), Ok(place)) => {
                assert!(rt; place < table.len());
                assert!(rt; rule.is_same(&table[place].na), "at {numbers:?}: {rule:?}");
            }
            (Err(error), Err(wanted)) => assert_eq!(rt; error, wanted, "at {numbers:?}"),
            (got, want) => panic!(rt; "at {numbers:?}: {got:?} in place of {want:?}"),
        }
    }
    Ok(())
}

#[test]
fn misses(rt: HostRuntime) -> Result<(), Fail> {
    let rules = [
        NaRule::Absent,
        NaRule::Nan,
        NaRule::Other,
        text_rule(rt.alloc(), b"-")?,
    ];
    let rows = [
        (
            MissGroup::Makes,
            [Miss::Refuse, Miss::Gone, Miss::Refuse, Miss::AsText],
        ),
        (
            MissGroup::Orders,
            [Miss::Refuse, Miss::No, Miss::Refuse, Miss::AsText],
        ),
        (
            MissGroup::Differs,
            [Miss::Refuse, Miss::Yes, Miss::Refuse, Miss::AsText],
        ),
        (
            MissGroup::Tests,
            [Miss::Refuse, Miss::No, Miss::Refuse, Miss::AsText],
        ),
        (
            MissGroup::Searches,
            [Miss::Refuse, Miss::Refuse, Miss::Refuse, Miss::AsText],
        ),
        (
            MissGroup::Truth,
            [Miss::Refuse, Miss::Yes, Miss::Refuse, Miss::AsText],
        ),
        (
            MissGroup::Leaves,
            [Miss::Refuse, Miss::Refuse, Miss::Refuse, Miss::AsText],
        ),
    ];
    for (group, wants) in rows {
        for (rule, want) in rules.iter().zip(wants) {
            assert_eq!(rt; miss_of(group, rule), want, "{group:?} under {rule:?}");
        }
    }
    Ok(())
}
