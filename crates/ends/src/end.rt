//! What either end of a line holds, and how its keys change.
ghost use Rattle.account.specs.Ends.{appoint_reply, governed, new_end, strike_reply, withdraw_reply};
ghost use Rattle.account.specs.Keys.{Pending};
ghost use Rattle.ends.specs.Replies.{changed};
ghost use Rattle.ends.specs.States.{end_state};
ghost use Rattle.std.specs.Option.{option_map};
ghost use Rattle.std.specs.Prelude.{◌≡◌, OnErr};

use crate::keys::{PendingKey, ServingKey};
use crate::refusals::ChangeRefusal;
use family::Family;
use std::marker::PhantomData;

// One end of a line, with the role R: its keys, its door's number and the last slot that it has done.
#[derive(Drop)]
pub struct End<F: Family, R> {
    pub(crate) current: ServingKey<F>,
    pub(crate) pending: Option<PendingKey<F>>,
    pub(crate) door: u32,
    pub(crate) last: u32,
    // How many changed bits of a frame are mended: 0 at a reader's end. A number, as the creation of a door's end takes it.
    pub(crate) allowance: u8,
    pub(crate) role: PhantomData<R>,
}

impl<F: Family + Drop, R: Drop> End<F, R> {
    // An end that has done no slot yet.
    pub(crate) fn begin(current: ServingKey<F>, door: u32, allowance: u8) -> End<F, R>
        ensures { end_state F.meaning result ≡ new_end (F.meaning current.key) door allowance }
    {
        End {
            current,
            pending: None,
            door,
            last: 0,
            allowance,
            role: PhantomData,
        }
    }

    // The key that governs a slot.
    #[tactic(auto, unfolding(account::specs::Keys::governing))]
    pub(crate) fn governing(&self, slot: u32) -> &F
        ensures { F.meaning result.now ≡ governed (end_state F.meaning self.now) slot }
    {
        match &self.pending {
            Some(pending) if pending.start <= slot => &pending.key.key,
            _ => &self.current.key,
        }
    }

    // The last slot that was sealed or opened, 0 at first.
    pub fn last_slot(&self) -> u32
        ensures { result ≡ (end_state F.meaning self.now).last }
    {
        self.last
    }

    // The slot from which the next key governs, if one is appointed.
    pub fn pending_start(&self) -> Option<u32>
        ensures { result ≡ option_map (λ (p : Pending). p.start) (end_state F.meaning self.now).next }
    {
        self.pending.as_ref().map(|pending| pending.start)
    }

    // Appoints the next key, to govern from a slot on. A key that is refused is dropped.
    pub fn appoint(&mut self, key: F, start: u32) -> Result<(), ChangeRefusal>
        ensures replies { changed result (end_state F.meaning self.new) ≡ appoint_reply (end_state F.meaning self.old) (F.meaning key) start }
        ensures unchanged { OnErr result (self.new ≡ self.old) }
    {
        if self.pending.is_some() {
            return Err(ChangeRefusal::Pending);
        }
        if start <= self.last {
            return Err(ChangeRefusal::StartSpent);
        }
        let key = ServingKey::admit(key)?;
        self.pending = Some(PendingKey { key, start });
        Ok(())
    }

    // Strikes the current key: the next one takes its place.
    pub fn strike(&mut self) -> Result<(), ChangeRefusal>
        ensures replies { changed result (end_state F.meaning self.new) ≡ strike_reply (end_state F.meaning self.old) }
        ensures unchanged { OnErr result (self.new ≡ self.old) }
    {
        match self.pending.take() {
            None => Err(ChangeRefusal::NonePending),
            Some(pending) if self.last < pending.start => {
                self.pending = Some(pending);
                Err(ChangeRefusal::NotYetUsed)
            }
            Some(pending) => {
                self.current = pending.key;
                Ok(())
            }
        }
    }

    // Withdraws the next key.
    pub fn withdraw(&mut self) -> Result<(), ChangeRefusal>
        ensures replies { changed result (end_state F.meaning self.new) ≡ withdraw_reply (end_state F.meaning self.old) }
        ensures unchanged { OnErr result (self.new ≡ self.old) }
    {
        match &self.pending {
            None => Err(ChangeRefusal::NonePending),
            Some(pending) if pending.start <= self.last => Err(ChangeRefusal::AlreadyUsed),
            Some(_) => {
                self.pending = None;
                Ok(())
            }
        }
    }
}
