// The core: the inner core, what is kept beside it, and the questions that wait for the user.

ghost use Rattle.std.specs.Prelude.{◌≡◌, []};
ghost use Rattle.sso_base.specs.Journal.{most_of};

use core_stack::{KeptJournal, Provides};
use held_rows::Held;
use signout_answer::{EndAsk, EndParts, EndSetup, OwnReply, QuestionRow};
use sso_base::Pair;
use std::alloc::Global;
use std::marker::Model;

/// A core that asks the user before a relying party's request ends a session, around another core (RP-Initiated Logout 1.0). The model
/// is its setup, the inner core, and the history, oldest pair first.
#[derive(Drop)]
pub struct SignoutCore<P: Provides> {
    pub(crate) setup: EndSetup,
    pub(crate) inner: P,
    pub(crate) kept: KeptJournal<EndParts, Pair<EndAsk<P::Ask>, OwnReply>>,
    pub(crate) questions: Held<QuestionRow>,
}

impl<P: Provides> Model for SignoutCore<P> {
    ghost use Rattle.signout_answer.specs.Around.{merged_history};
    ghost use Rattle.rp_signout.specs.Keeps.{Signing, Keeps};

    ghost Value = { Signing P P.Ask P.Reply };

    ghost view = { λ c. record { setup = c.setup; inner = c.inner; history = merged_history c.kept.kept (P.history c.inner) } };

    ghost invariant = { λ c. Keeps P.plain_ask P.IsAsk P.weighs P.most P.is_legal (record { own = c.setup; inner = P.setup c.inner })
        (P.history c.inner) c.kept.kept c.kept.weight c.kept.last c.kept.most c.questions.rows };
}

// The history of the inner core is legal. The call does nothing.
fn know_legal<P: Provides>(inner: &P)
    ensures { P.is_legal (P.setup inner.now) (P.history inner.now) }
{
    let _count = inner.count();
}

impl<P: Provides> SignoutCore<P> {
    /// A core with an empty history, around one with an empty history and the same registry. It stores what it keeps, unless histories
    /// last.
    pub fn new(alloc: Global, setup: EndSetup, inner: P) -> SignoutCore<P>
        requires empty { P.history inner ≡ [] }
        requires registry { P.provider_registry inner ≡ setup.registry }
        requires most { P.most (P.setup inner) ≡ most_of setup.registry.lasting }
        ensures setup { result.setup ≡ setup }
        ensures inner { result.inner ≡ inner }
        ensures history { result.history ≡ [] }
    {
        know_legal(&inner);
        let lasts = setup.registry.lasting();
        let kept = KeptJournal::new(alloc, lasts);
        let questions = Held::new(alloc);
        SignoutCore {
            setup,
            inner,
            kept,
            questions,
        }
    }
}
