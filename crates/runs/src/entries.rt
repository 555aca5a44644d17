//! A run over a lent slice of entries, each answered where it stands. Nothing is allocated.
ghost use Rattle.account.specs.Runs.{Kept};
ghost use Rattle.ends.specs.States.{door_state, reader_state};
ghost use Rattle.runs.specs.Calls.{both};
ghost use Rattle.runs.specs.Entries.{AllBecome, Becomes, all_asked, all_told, asked, told as told_for};

use crate::calls::{Call, Reply};
use crate::step::{look_at, step};
use ends::{DoorEnd, ReaderEnd};
use family::Family;
use pads::PadSource;

// A place in a run: a call that is asked for, or what was told. A blank entry asks for nothing.
#[derive(Drop)]
pub enum Entry<F, G, P> {
    Asked(Call<F, G, P>),
    Told(Reply),
    Blank,
}

// Answers one entry.
fn answer<F: Family + Drop, G: Family + Drop, P: PadSource + Drop>(
    reader: &mut ReaderEnd<F>,
    door: &mut DoorEnd<G>,
    entry: Entry<F, G, P>,
) -> Entry<F, G, P>
    ensures becomes { Becomes entry result }
    ensures kept { Kept (both (reader_state F.Family.meaning reader.old) (door_state G.Family.meaning door.old)) (asked F.Family.meaning G.Family.meaning P.words entry) (told_for entry result) (both (reader_state F.Family.meaning reader.new) (door_state G.Family.meaning door.new)) }
{
    match entry {
        Entry::Asked(call) => {
            look_at(&call);
            Entry::Told(step(reader, door, call))
        }
        Entry::Told(reply) => Entry::Told(reply),
        Entry::Blank => Entry::Blank,
    }
}

// Carries out the calls that the entries ask for, in order, and leaves each answer with its output buffer in the entry that
// asked; other entries stay as they were. What is promised: whatever was created and called before, if the two ends stand
// as the account of it says, then each answer and buffer is what the account works out, the ends then stand as it says, and
// the promise holds of all calls so far. The ends are two parameters: a caller holds them apart, as they stand apart.
pub fn run<F: Family + Drop, G: Family + Drop, P: PadSource + Drop>(
    reader: &mut ReaderEnd<F>,
    door: &mut DoorEnd<G>,
    entries: &mut [Entry<F, G, P>],
)
    ensures each { AllBecome entries.old entries.new }
    ensures kept { Kept (both (reader_state F.Family.meaning reader.old) (door_state G.Family.meaning door.old)) (all_asked F.Family.meaning G.Family.meaning P.words entries.old) (all_told entries.old entries.new) (both (reader_state F.Family.meaning reader.new) (door_state G.Family.meaning door.new)) }
{
    for entry in entries.iter_mut() {
        let was = std::mem::replace(entry, Entry::Blank);
        *entry = answer(reader, door, was);
    }
}
