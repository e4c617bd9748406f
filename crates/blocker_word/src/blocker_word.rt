ghost use Rattle.std.specs.Prelude.{◌≡◌, ◌+◌, ◌*◌, ◌<◌, true, false, IfOk, IfErr};
ghost use Rattle.blocker_word.specs.Roles.{one_if_item, one_if_refused, idle, started};
ghost use Rattle.blocker_word.specs.Word.{HasDoneBit, bits_of};
ghost use Rattle.blocker_word.specs.Tokens.{Stepped};
ghost use Rattle.blocker_word.specs.Plays.{Began, TriedAt, ended};

use crate::rule::{Begin, End, Finish, Law, Look, Open, Start};
use crate::tokens::{Control, Done, Idle, Item, Live, Started, Token};
use crate::view::View;
use atomic_table::Table;
use std::alloc::{AllocError, Global};
use std::marker::Model;

mod widths;

// The bit that is set from the start of shutdown on.
const START_BIT: u64 = 1;

// The bit that is set once shutdown is done.
const DONE_BIT: u64 = 2;

// What the word has more for each item.
const ONE_ITEM: u64 = 4;

// Whether the word has the done bit.
#[tactic(auto, using(crate::proofs::Changes::tested))]
fn has_done(word: u64) -> bool
    ensures set { result ≡ true → HasDoneBit word }
    ensures clear { result ≡ false → ¬ HasDoneBit word }
{
    word & DONE_BIT != 0
}

/// The count of what blocks shutdown, as one atomic word. It may lie in an `Arc`, or be borrowed by the threads of a scope.
/// No call waits, and only `new` takes memory. The notion is the state of Chromium's `TaskTracker` (`task_tracker.cc`).
///
/// Contracts see which word it is.
#[derive(Drop)]
pub struct BlockerWord {
    table: Table<u32, View, (), Law, Global>,
}

impl Model for BlockerWord {
    ghost use Rattle.std.specs.Prelude.{◌≡◌};
    ghost use Rattle.atomic_table.specs.Seated.{TableId};

    ghost Value = { TableId };

    ghost view = { λ w. w.table.shared.table_id };

    ghost invariant = { λ w. w.table.shared.table_id.words ≡ 1 };
}

impl BlockerWord {
    /// A word that counts nothing, the token of its shutdown, and an idle token with all of the width.
    pub fn new(alloc: Global) -> Result<(BlockerWord, Control, Idle), AllocError>
        ensures control { IfOk result (λ made. made.1 ≡ record { of = made.0; width = 0; tries = 0; met = 0 }) }
        ensures idle { IfOk result (λ made. made.2 ≡ record { of = made.0; width = 4294967295; tries = 0; met = 0 }) }
    {
        let (table, mut first) = Table::of_words(alloc, &[0], &())?;
        let token = table.shared.split_seat::<Open>(&mut first);
        Ok((
            BlockerWord { table },
            Control { token: first },
            Idle {
                token,
                width: u32::MAX,
            },
        ))
    }

    // One item more in the count. It gives the word that was found.
    fn add(&self, token: &mut Token) -> u64
        requires of { token.old.table_id ≡ self.now }
        requires idle { token.old.me.0.role ≡ idle }
        ensures token { (token.new.table_id ≡ token.old.table_id) × (token.new.id ≡ token.old.id) }
        ensures view { Began token.old.me result token.new.me }
    {
        self.table.shared.fetch_add::<Begin>(token, 0, ONE_ITEM)
    }

    // One item less in the count, of a live item or a refused begin.
    fn subtract(&self, token: &mut Token)
        requires of { token.old.table_id ≡ self.now }
        requires counted { one_if_item token.old.me.0.role + one_if_refused token.old.me.0.role ≡ 1 }
        ensures token { (token.new.table_id ≡ token.old.table_id) × (token.new.id ≡ token.old.id) }
        ensures view { ended token.old.me token.new.me }
    {
        self.table.shared.fetch_sub::<End>(token, 0, ONE_ITEM);
    }

    /// Begins an item, which blocks shutdown until it ends. It is refused once shutdown is done: the idle token then comes
    /// back, after its count was taken back.
    pub fn begin(&self, idle: Idle) -> Result<Item, Idle>
        requires of { idle.of ≡ self.now }
        ensures item { IfOk result (λ item. Stepped idle item) }
        ensures given { IfOk result (λ item. ¬ HasDoneBit item.met) }
        ensures idle { IfErr result (λ back. Stepped idle back) }
        ensures refused { IfErr result (λ back. HasDoneBit back.met) }
    {
        let Idle { mut token, width } = idle;
        let found = self.add(&mut token);
        if has_done(found) {
            self.subtract(&mut token);
            return Err(Idle { token, width });
        }
        Ok(Item { token, width })
    }

    /// Ends an item.
    pub fn end(&self, item: Item) -> Idle
        requires of { item.of ≡ self.now }
        ensures idle { result ≡ item }
    {
        let Item { mut token, width } = item;
        self.subtract(&mut token);
        Idle { token, width }
    }

    /// Starts shutdown: from now on the start bit is set. Items may begin as before.
    pub fn start(&self, control: Control) -> Started
        requires of { control.of ≡ self.now }
        ensures started { Stepped control result }
        ensures first { bits_of result.met ≡ 0 }
    {
        let Control { mut token } = control;
        self.table
            .shared
            .fetch_or::<Start>(&mut token, 0, START_BIT);
        Started { token }
    }

    // Sets the done bit, if the start bit stands alone. It gives the word that was found.
    fn finish(&self, token: &mut Token) -> u64
        requires of { token.old.table_id ≡ self.now }
        requires started { token.old.me.0.role ≡ started }
        ensures token { (token.new.table_id ≡ token.old.table_id) × (token.new.id ≡ token.old.id) }
        ensures view { TriedAt token.old.me result token.new.me }
    {
        self.table
            .shared
            .compare_exchange::<Finish>(token, 0, START_BIT, START_BIT + DONE_BIT)
    }

    /// Shutdown is done, if no item is live. Else it gives the number of live items, and can be tried again.
    pub fn try_done(&self, started: Started) -> Result<Done, Live>
        requires of { started.of ≡ self.now }
        ensures done { IfOk result (λ done. Stepped started done) }
        ensures none_live { IfOk result (λ done. done.met ≡ 1) }
        ensures live { IfErr result (λ live. Stepped started live.started) }
        ensures some_live { IfErr result (λ live. 0 < live.count) }
        ensures count { IfErr result (λ live. live.started.met ≡ 4 * live.count + 1) }
    {
        let Started { mut token } = started;
        let found = self.finish(&mut token);
        if found == START_BIT {
            return Ok(Done { token });
        }
        Err(Live {
            started: Started { token },
            count: found / ONE_ITEM,
        })
    }

    /// The word as it is: four times the count, and the bits.
    pub fn look(&self, idle: &mut Idle) -> u64
        requires of { idle.old.of ≡ self.now }
        ensures idle { Stepped idle.old idle.new }
        ensures word { result ≡ idle.new.met }
    {
        self.table.shared.load::<Look>(&mut idle.token, 0)
    }
}
