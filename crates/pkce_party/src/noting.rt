// The verifiers after a reply. It allocates nothing.

ghost use Rattle.std.specs.Prelude.{◌≡◌, ◌<◌, ◌≤◌, length, IfSome};
ghost use Rattle.rp_answer.specs.Logins.{ends_login as ends};
ghost use Rattle.pkce_party.specs.Verifiers.{if_begun};
ghost use Rattle.pkce_party.specs.Noting as spec;

use crate::known::Known;
use crate::rows::VerifierRow;
use held_rows::Held;
use rp_core::ends_login;
use rp_exchange::RpReply;
use sso_base::Word;

// The verifier of the login that a reply begins.
fn row_begun(drawn: &Option<VerifierRow>, reply: &RpReply) -> Option<VerifierRow>
    ensures { result ≡ if_begun reply.now drawn.now }
{
    match reply {
        RpReply::Ask { .. } => *drawn,
        _ => None,
    }
}

// Removes the verifier of the login that ends.
fn end_row(verifiers: &mut Held<VerifierRow>, ended: bool, state: &Option<Word>)
    ensures rows { verifiers.new ≡ record verifiers.old { rows = spec.ended_rows ended state.now verifiers.old.rows } }
    ensures bound { length verifiers.new.rows ≤ length verifiers.old.rows }
{
    if !ended {
        return;
    }
    if let Some(state) = state {
        verifiers.remove(&state.bytes());
    }
}

// Adds the verifier of the login that begins. Room was reserved for it.
fn add_row(verifiers: &mut Held<VerifierRow>, row: Option<VerifierRow>)
    requires memory { length verifiers.old.rows < verifiers.old.capacity }
    requires may { IfSome row (spec.MayAddVerifier verifiers.old.rows) }
    ensures { verifiers.new.rows ≡ spec.pushed row verifiers.old.rows }
{
    if let Some(row) = row {
        verifiers.add(row);
    }
}

/// Updates the verifiers with a reply: those whose life has ended are removed, and so is that of the login that ends. That of the
/// login that begins is added.
pub(crate) fn note(verifiers: &mut Held<VerifierRow>, known: &Known, reply: &RpReply)
    requires memory { length verifiers.old.rows < verifiers.old.capacity }
    requires may { IfSome (if_begun reply.now known.now.drawn) (spec.MayAddVerifier (spec.rows_left known.now (ends reply.now) verifiers.old.rows)) }
    ensures { verifiers.new.rows ≡ spec.noted known.now reply.now verifiers.old.rows }
{
    verifiers.purge(known.at);
    end_row(verifiers, ends_login(reply), &known.state);
    add_row(verifiers, row_begun(&known.drawn, reply));
}
