// The core: the inner core, what is kept beside it, and the tables of offline access and of families.

ghost use Rattle.std.specs.Prelude.{◌≡◌, []};
ghost use Rattle.sso_base.specs.Journal.{most_of};

use client_registry::Registry;
use core_stack::{CodeMark, KeptJournal, Provides, TurnMark};
use held_rows::Held;
use refresh_answer::{OwnReply, RefreshAsk, RefreshParts};
use refresh_rows::Book;
use sso_base::Pair;
use std::alloc::Global;
use std::marker::Model;

/// A core with refresh tokens, around another core (RFC 6749, 6). The model is the inner core, the registry, and the history, oldest pair
/// first.
#[derive(Drop)]
pub struct RefreshCore<P: Provides> {
    pub(crate) inner: P,
    pub(crate) registry: Registry,
    pub(crate) kept: KeptJournal<RefreshParts, Pair<RefreshAsk<P::Ask>, OwnReply>>,
    pub(crate) turns: Held<TurnMark<bool>>,
    pub(crate) codes: Held<CodeMark<bool>>,
    pub(crate) book: Book,
}

impl<P: Provides> Model for RefreshCore<P> {
    ghost use Rattle.std.specs.Prelude.{◌≡◌};
    ghost use Rattle.refresh_answer.specs.Around.{merged_history};
    ghost use Rattle.refresh_book.specs.Keeps.{Refreshing, Keeps};

    ghost Value = { Refreshing P P.Ask P.Reply };

    ghost view = { λ c. record { inner = c.inner; registry = c.registry; history = merged_history c.kept.kept (P.history c.inner) } };

    ghost invariant = { λ c. (c.registry ≡ P.provider_registry c.inner)
        × Keeps P.plain_ask P.given_reply P.provided P.IsAsk P.weighs P.most P.is_legal (record { inner = P.setup c.inner; registry = c.registry })
        (P.history c.inner) c.kept.kept c.kept.weight c.kept.last c.kept.most c.turns.rows c.codes.rows c.book };
}

// The history of the inner core is legal. The call does nothing.
fn know_legal<P: Provides>(inner: &P)
    ensures { P.is_legal (P.setup inner.now) (P.history inner.now) }
{
    let _count = inner.count();
}

impl<P: Provides> RefreshCore<P> {
    /// A core with an empty history, around one with an empty history and this registry. It stores what it keeps, unless histories last.
    pub fn new(alloc: Global, registry: Registry, inner: P, lasts: bool) -> RefreshCore<P>
        requires empty { P.history inner ≡ [] }
        requires registry { registry ≡ P.provider_registry inner }
        requires most { P.most (P.setup inner) ≡ most_of lasts }
        ensures inner { result.inner ≡ inner }
        ensures registry { result.registry ≡ registry }
        ensures history { result.history ≡ [] }
    {
        know_legal(&inner);
        let kept = KeptJournal::new(alloc, lasts);
        let turns = Held::new(alloc);
        let codes = Held::new(alloc);
        let book = Book::new(alloc);
        RefreshCore {
            inner,
            registry,
            kept,
            turns,
            codes,
            book,
        }
    }
}
