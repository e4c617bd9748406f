use situation_key::key;
use situation_steps::Situation;
use std::alloc::{AllocError, Global};
use std::hash::{Hash, Hasher};
use std::marker::Model;

/// A situation with the key by which a table finds it. Contracts see the situation.
#[derive(Drop)]
pub(crate) struct Place {
    situation: Situation,
    key: Vec<u64>,
}

impl Model for Place {
    ghost use Rattle.std.specs.Prelude.{◌≡◌};
    ghost use Rattle.situation.specs.Situation.{Situation};
    ghost use Rattle.situation_key.specs.Words.{key_of};

    ghost Value = { Situation };

    ghost view = { λ p. p.situation };

    ghost invariant = { λ p. p.key.items ≡ key_of p.situation };
}

impl Place {
    ghost use Rattle.std.specs.Prelude.{◌≡◌, IfOk};

    /// The place of a situation. The error is out of memory.
    pub(crate) fn new(alloc: Global, situation: Situation) -> Result<Place, AllocError>
        ensures { IfOk result (λ place. place ≡ situation) }
    {
        let key = key(alloc, &situation)?;
        Ok(Place { situation, key })
    }

    /// The situation.
    pub(crate) fn situation(&self) -> &Situation
        ensures { result.now ≡ self.now }
    {
        &self.situation
    }
}

impl PartialEq for Place {
    ghost use Rattle.std.proofs.Common.{rules};
    ghost use Rattle.std.specs.Cmp.Rules.{comparing};
    ghost use Rattle.log_counting.specs.Keys.{same_key};

    ghost eq = { same_key };

    ghost laws = { Prim.search (comparing, rules) };

    fn eq(&self, other: &Place) -> bool {
        self.key == other.key
    }
}

impl Eq for Place {
    ghost use Rattle.std.proofs.Common.{rules};
    ghost use Rattle.std.specs.Cmp.Rules.{comparing};

    ghost laws = { Prim.search (comparing, rules) };
}

impl Hash for Place {
    ghost use Rattle.std.proofs.Common.{rules};
    ghost use Rattle.std.specs.Hash as fed;
    ghost use Rattle.std.specs.Cmp.Rules.{hashing};
    ghost use Rattle.situation_key.specs.Words.{key_of};

    ghost hash_input = { λ p. fed.slice fed.u64 (key_of p) };

    ghost respects_eq = { Prim.search (hashing, rules) };

    fn hash<H: Hasher>(&self, state: &mut H) {
        self.key.hash(state);
    }
}
