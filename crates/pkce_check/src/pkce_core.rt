// The core: the inner core, what is kept beside it, and the challenges of turns and codes.

ghost use Rattle.std.specs.Prelude.{◌≡◌, []};
ghost use Rattle.sso_base.specs.Journal.{most_of};

use core_stack::{CodeMark, KeptJournal, Provides, TurnMark};
use held_rows::Held;
use op_exchange::OpReply;
use pkce_answer::{PkceAsk, PkceParts};
use sso_base::Pair;
use std::alloc::Global;
use std::marker::Model;

/// A core that checks proof keys, around another core (RFC 7636, 4.6). The model is the inner core and the history, oldest pair first.
#[derive(Drop)]
pub struct PkceCore<P: Provides> {
    pub(crate) inner: P,
    pub(crate) kept: KeptJournal<PkceParts, Pair<PkceAsk<P::Ask>, OpReply>>,
    pub(crate) turns: Held<TurnMark<Option<[u8; 43]>>>,
    pub(crate) codes: Held<CodeMark<Option<[u8; 43]>>>,
}

impl<P: Provides> Model for PkceCore<P> {
    ghost use Rattle.pkce_answer.specs.Around.{merged_history};
    ghost use Rattle.pkce_check.specs.Keeps.{Checking, Keeps};

    ghost Value = { Checking P P.Ask P.Reply };

    ghost view = { λ c. record { inner = c.inner; history = merged_history c.kept.kept (P.history c.inner) } };

    ghost invariant = { λ c. Keeps P.plain_ask P.given_reply P.IsAsk P.weighs P.most P.is_legal (P.setup c.inner) (P.history c.inner)
        c.kept.kept c.kept.weight c.kept.last c.kept.most c.turns.rows c.codes.rows };
}

// The history of the inner core is legal. The call does nothing.
fn know_legal<P: Provides>(inner: &P)
    ensures { P.is_legal (P.setup inner.now) (P.history inner.now) }
{
    let _count = inner.count();
}

impl<P: Provides> PkceCore<P> {
    /// A core with an empty history, around one with an empty history. It stores what it keeps, unless histories last.
    pub fn new(alloc: Global, inner: P, lasts: bool) -> PkceCore<P>
        requires empty { P.history inner ≡ [] }
        requires most { P.most (P.setup inner) ≡ most_of lasts }
        ensures inner { result.inner ≡ inner }
        ensures history { result.history ≡ [] }
    {
        know_legal(&inner);
        let kept = KeptJournal::new(alloc, lasts);
        let turns = Held::new(alloc);
        let codes = Held::new(alloc);
        PkceCore {
            inner,
            kept,
            turns,
            codes,
        }
    }
}
