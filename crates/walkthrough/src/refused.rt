//! Raw keys that are refused, one for each question.
use crate::keys::SMALL;
use family::RawKey;
use lfsr::MacCKey;

// The small key with one number out of its range, then with a reach at which a column comes again.
const REFUSED: [RawKey; 6] = [
    RawKey {
        degree: 2,
        state: 1,
        ..SMALL
    },
    RawKey {
        coefficients: 8,
        ..SMALL
    },
    RawKey {
        coefficients: 2,
        ..SMALL
    },
    RawKey { state: 0, ..SMALL },
    RawKey {
        reach: 1017,
        ..SMALL
    },
    RawKey { reach: 8, ..SMALL },
];

fn show_one(rt: &impl Print, raw: RawKey) -> anyhow::Result<()> {
    let RawKey {
        degree,
        coefficients,
        state,
        reach,
    } = raw;
    print!(rt; "  degree {degree}, coefficients {coefficients}, state {state}, reach {reach}: ")?;
    match MacCKey::admit(raw) {
        Ok(_) => println!(rt; "admitted")?,
        Err(refusal) => {
            let number = refusal.number();
            println!(rt; "refused with {number}: {refusal}")?;
        }
    }
    Ok(())
}

pub(crate) fn show(rt: &impl Print) -> anyhow::Result<()> {
    println!(rt; "")?;
    println!(rt; "Raw keys that are refused, by the first question that they fail:")?;
    for raw in REFUSED {
        show_one(rt, raw)?;
    }
    Ok(())
}
