ghost use Rattle.std.specs.Prelude.{◌≡◌, [], ◌∷◌, length, IfOk, IfSome};
ghost use Rattle.std.specs.Option.{option_map};
ghost use Rattle.script_model.specs.Laws.Sound.{IsSound};
ghost use Rattle.hist_model.specs.Script.{current, is_finished};
ghost use Rattle.hist_model.specs.Views.{own_entries};
ghost use Rattle.env_core.specs.Agenda.{counted};
ghost use Rattle.env_core.specs.Ledger.{MayEnter};
ghost use Rattle.env_core.specs.Views.{Enters, spare_of};

use crate::agenda::{Agenda, Shift};
use script_bound::events_bound;
use std::alloc::{AllocError, Global};
use std::marker::Model;
use task_base::{Action, Entry, Kind, Rows, Script, SeatNo};

/// The script of a run, its history, and how far the driver has come.
///
/// Contracts see it as the script and the entries so far. All memory is taken by `open`.
#[derive(Drop)]
pub struct Ledger {
    script: Script,
    log: Rows<Entry>,
    /// How far the driver has come.
    agenda: Agenda,
}

impl Model for Ledger {
    ghost use Rattle.env_core.specs.Views.{EnvView};
    ghost use Rattle.env_core.specs.Ledger.{IsKept};

    ghost Value = { EnvView };

    ghost view = { λ l. record { script = l.script; history = l.log.items } };

    ghost invariant = { λ l. IsKept l.script l.log l.agenda };
}

impl Ledger {
    /// The ledger of a script, with no entry. The error is want of memory, and nothing is left made.
    pub fn open(alloc: Global, script: Script) -> Result<Ledger, AllocError>
        requires { IsSound script }
        ensures { IfOk result (λ ledger. ledger ≡ record { script = script; history = [] }) }
    {
        let log = Vec::with_capacity(alloc, events_bound(&script) as usize)?;
        Ok(Ledger {
            script,
            log: Rows::from_vec(log),
            agenda: Agenda { place: 0, made: 0 },
        })
    }

    /// Enters what a seat has done.
    pub fn enter(&mut self, seat: SeatNo, kind: Kind, shift: Shift)
        requires { MayEnter self.old seat kind shift }
        ensures { Enters self.old self.new seat kind }
    {
        self.agenda.follow(&self.script, shift);
        self.log.push_spare(Entry { seat, kind });
    }

    /// How many entries there are.
    pub fn len(&self) -> u32
        ensures { result ≡ length self.now.history }
    {
        self.log.len() as u32
    }

    /// The action that the driver is at. None where the script is finished.
    pub fn action(&self) -> Option<Action>
        ensures { result ≡ option_map (λ c. c.action) (current self.now.script (own_entries 0 self.now.history)) }
    {
        self.script.actions.at(self.agenda.place).copied()
    }

    /// How many entries that count the driver's action has made.
    pub fn made(&self) -> u32
        ensures { IfSome (current self.now.script (own_entries 0 self.now.history)) (λ c. result ≡ counted (c.action ∷ []) c.made) }
    {
        self.agenda.made
    }

    /// Whether the driver has performed the script to its end.
    pub fn is_finished(&self) -> bool
        ensures { result ≡ is_finished self.now.script self.now.history }
    {
        self.agenda.is_finished(&self.script)
    }

    /// The history, with the room that is left for further entries.
    pub fn into_log(self) -> Rows<Entry>
        ensures items { result.items ≡ self.history }
        ensures room { result.spare ≡ spare_of self }
    {
        self.log
    }
}
