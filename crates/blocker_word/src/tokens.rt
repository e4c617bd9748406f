ghost use Rattle.std.specs.Prelude.{◌≡◌, ◌<◌};

use crate::view::View;
use std::marker::Model;

/// What a token steps with: a seat of the table, with its view.
pub(crate) type Token = atomic_table::Seat<u32, View>;

/// A token without an item. It has a width, the number of idle tokens that it may be split into, which is at least 1.
///
/// Contracts see its word, its width, the number of its steps and the word that the last of them found. All but the width
/// exist in contracts alone.
#[derive(Drop)]
pub struct Idle {
    pub(crate) token: Token,
    pub(crate) width: u32,
}

impl Model for Idle {
    ghost use Rattle.std.specs.Prelude.{◌≡◌, ◌<◌, []};
    ghost use Rattle.blocker_word.specs.Roles.{idle};
    ghost use Rattle.blocker_word.specs.Tokens.{TokenView, token_view};

    ghost Value = { TokenView };

    ghost view = { λ t. token_view t.token.table_id t.token.me.0 };

    ghost invariant = { λ t. (t.token.me.1 ≡ []) × (t.token.me.0.role ≡ idle) × (t.token.me.0.width ≡ t.width) × (0 < t.width) };
}

impl Idle {
    /// The number of idle tokens that this one may be split into.
    pub fn width(&self) -> u32
        ensures width { result ≡ self.now.width }
        ensures some { 0 < result }
    {
        self.width
    }
}

/// A live item, which blocks shutdown until it ends. It cannot be dropped, so whoever begins an item has to end it.
///
/// Contracts see it as the idle token that it was.
pub struct Item {
    pub(crate) token: Token,
    pub(crate) width: u32,
}

impl Model for Item {
    ghost use Rattle.std.specs.Prelude.{◌≡◌, ◌<◌, []};
    ghost use Rattle.blocker_word.specs.Roles.{item};
    ghost use Rattle.blocker_word.specs.Tokens.{TokenView, token_view};

    ghost Value = { TokenView };

    ghost view = { λ t. token_view t.token.table_id t.token.me.0 };

    ghost invariant = { λ t. (t.token.me.1 ≡ []) × (t.token.me.0.role ≡ item) × (t.token.me.0.width ≡ t.width) × (0 < t.width) };
}

/// The token with which shutdown starts. A word has one such token, or one of those that it becomes.
///
/// Contracts see it as they see an idle token, without a width.
#[derive(Drop)]
pub struct Control {
    pub(crate) token: Token,
}

impl Model for Control {
    ghost use Rattle.std.specs.Prelude.{◌≡◌, []};
    ghost use Rattle.blocker_word.specs.Roles.{control};
    ghost use Rattle.blocker_word.specs.Tokens.{TokenView, token_view};

    ghost Value = { TokenView };

    ghost view = { λ t. token_view t.token.table_id t.token.me.0 };

    ghost invariant = { λ t. (t.token.me.1 ≡ []) × (t.token.me.0.role ≡ control) };
}

/// The token with which shutdown, which was started, is done.
///
/// Contracts see it as they see an idle token, without a width.
#[derive(Drop)]
pub struct Started {
    pub(crate) token: Token,
}

impl Model for Started {
    ghost use Rattle.std.specs.Prelude.{◌≡◌, []};
    ghost use Rattle.blocker_word.specs.Roles.{started};
    ghost use Rattle.blocker_word.specs.Tokens.{TokenView, token_view};

    ghost Value = { TokenView };

    ghost view = { λ t. token_view t.token.table_id t.token.me.0 };

    ghost invariant = { λ t. (t.token.me.1 ≡ []) × (t.token.me.0.role ≡ started) };
}

/// The token of a shutdown that is done. No item is live as long as it exists (`no_item_is_live_after_done`).
///
/// Contracts see it as they see an idle token, without a width.
#[derive(Drop)]
pub struct Done {
    pub(crate) token: Token,
}

impl Model for Done {
    ghost use Rattle.std.specs.Prelude.{◌≡◌, []};
    ghost use Rattle.blocker_word.specs.Roles.{done};
    ghost use Rattle.blocker_word.specs.Tokens.{TokenView, token_view};

    ghost Value = { TokenView };

    ghost view = { λ t. token_view t.token.table_id t.token.me.0 };

    ghost invariant = { λ t. (t.token.me.1 ≡ []) × (t.token.me.0.role ≡ done) };
}

/// Shutdown is not done yet, since `count` items were live, at least one.
#[derive(Drop)]
pub struct Live {
    pub started: Started,
    pub count: u64,
}
