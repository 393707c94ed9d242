// The sessions of a relying party.

ghost use Rattle.std.specs.Prelude.{◌≡◌, ◌<◌, true, ◌||◌, length, Some, None, is_some, option_map, option_and_then, refl};
ghost use Rattle.std.specs.Option.{option_copied};
ghost use Rattle.std.specs.Str.{bytes_eq};
ghost use Rattle.std.proofs.Common.{sym, ap};
ghost use Rattle.std.proofs.lemmas.Bool.{and_parts};
ghost use Rattle.sso_base.specs.Rows.{row_of, if_lives};
ghost use Rattle.sso_base.proofs.RowLaws.{bytes_same};
ghost use Rattle.held_rows.specs.FoundBy.{found_by};
ghost use Rattle.held_rows.specs.Held.{none_after, most_rows};
ghost use Rattle.held_rows.specs.declared.row.By.TheVariants.{Group, OtherGroup};
ghost use Rattle.rp_login.specs.Named.{fits_text, is_meant};
ghost use Rattle.rp_login.specs.Rows.{visit_name, visit_begun};
ghost use Rattle.oidc_words.specs.Lives.{visit_life};
ghost use Rattle.rp_login.specs.Tables as spec;

use crate::rows::SessionRow;
use crate::tables::Logins;
use held_rows::{By, Test};
use sso_base::{Moment, Text, Word};

// Whether the part is not given, or is equal to this text.
fn fits(part: Option<&[u8]>, text: Option<&Text>) -> bool
    ensures { result ≡ fits_text (option_map (λ p. p.now) part.entry) (option_copied text.entry) }
{
    match (part, text) {
        (None, _) => true,
        (Some(_), None) => false,
        (Some(part), Some(text)) => part == text.as_str().as_bytes(),
    }
}

// Whether the session matches each given part.
fn is_named(visit: &SessionRow, sub: Option<&[u8]>, sid: Option<&[u8]>) -> bool
    ensures { result ≡ is_meant (option_map (λ p. p.now) sub.entry) (option_map (λ p. p.now) sid.entry) visit.now }
{
    fits(sub, Some(&visit.sub)) && fits(sid, visit.sid.as_ref())
}

// The sessions with a `sid` and, if one is given, a subject.
#[derive(Clone, Copy)]
struct OfSid<'a> {
    sub: Option<&'a [u8]>,
    sid: &'a [u8],
}

impl Test<SessionRow> for OfSid<'_> {
    ghost passes = { λ t visit. is_meant (option_map (λ p. p.now) t.sub) (Some t.sid.now) visit };

    ghost by = { λ t. OtherGroup };

    ghost key = { λ t. t.sid.now };

    fn passes(&self, visit: &SessionRow) -> bool {
        is_named(visit, self.sub, Some(self.sid))
    }

    fn by(&self) -> By {
        By::OtherGroup
    }

    fn key(&self) -> &[u8] {
        self.sid
    }

    ghost are_found = { λ t visit passes. found_by t.sid.now (fits_text (Some t.sid.now)) refl
        (λ held fits. sym (bytes_same t.sid.now held fits)) visit.sid
        (and_parts (fits_text (option_map (λ p. p.now) t.sub) (Some visit.sub)) (fits_text (Some t.sid.now) visit.sid) passes).1 };
}

// The sessions with a subject.
#[derive(Clone, Copy)]
struct OfSub<'a> {
    sub: &'a [u8],
}

impl Test<SessionRow> for OfSub<'_> {
    ghost passes = { λ t visit. is_meant (Some t.sub.now) None visit };

    ghost by = { λ t. Group };

    ghost key = { λ t. t.sub.now };

    fn passes(&self, visit: &SessionRow) -> bool {
        is_named(visit, Some(self.sub), None)
    }

    fn by(&self) -> By {
        By::Group
    }

    fn key(&self) -> &[u8] {
        self.sub
    }

    ghost are_found = { λ t visit passes. ap Some (sym (bytes_same t.sub.now visit.sub
        (and_parts (bytes_eq t.sub.now visit.sub) (fits_text None visit.sid) passes).0)) };
}

impl Logins {
    /// Adds a session. Room was reserved, the table is not full, its word is new, and no other session began later.
    pub fn add_session(&mut self, row: SessionRow)
        requires reserved { self.old.reserved.visits ≡ true }
        requires few { length self.old.visits < most_rows }
        requires unnamed { row_of visit_name row.word self.old.visits ≡ None }
        requires latest { none_after visit_begun row.entered self.old.visits ≡ true }
        ensures { self.new ≡ spec.with_visit row self.old }
    {
        self.reserved.visits = false;
        self.visits.add(row);
    }

    /// The session with this word; `None` if and only if no session in the table has it. Its life may have ended.
    pub fn session(&self, word: Word) -> Option<&SessionRow>
        ensures row { option_copied result ≡ row_of visit_name word self.now.visits }
        ensures held { spec.AreVisits self.now.visits }
    {
        self.visits.find(&word.bytes())
    }

    /// The session with this word, if it lives at the moment; `None` if and only if no such session does.
    pub fn live_session(&self, word: Word, at: Moment) -> Option<&SessionRow>
        ensures row { option_copied result ≡ option_and_then (if_lives visit_life visit_begun at) (row_of visit_name word self.now.visits) }
        ensures held { spec.AreVisits self.now.visits }
    {
        self.visits.living(&word.bytes(), at)
    }

    /// Removes the session with this word, and returns whether the table had one.
    pub fn end_session(&mut self, word: Word) -> bool
        ensures held { result ≡ is_some (row_of visit_name word self.old.visits) }
        ensures rows { self.new ≡ spec.visit_ended word self.old }
    {
        let held = self.session(word).is_some();
        self.visits.remove(&word.bytes());
        held
    }

    /// How many sessions that live at the moment match each given part, a subject or a `sid`. Right after a purge at that
    /// moment, they are those that `end_named` ends. Without a purge, `end_named` also ends sessions whose life is over.
    pub fn count_named(&self, sub: Option<&[u8]>, sid: Option<&[u8]>, at: Moment) -> u32
        ensures { result ≡ spec.live_named_count (option_map (λ p. p.now) sub.entry) (option_map (λ p. p.now) sid.entry) at self.now }
    {
        match (sub, sid) {
            (_, Some(sid)) => self.visits.count_live(&OfSid { sub, sid }, at),
            (Some(sub), None) => self.visits.count_live(&OfSub { sub }, at),
            (None, None) => self.visits.count_all_live(at),
        }
    }

    /// Removes the sessions that match each given part, a subject or a `sid`, and returns their number (OpenID Connect
    /// Back-Channel Logout 1.0, 2.7). A session without a `sid` matches no given `sid`.
    pub fn end_named(&mut self, sub: Option<&[u8]>, sid: Option<&[u8]>) -> u32
        requires { (is_some sub || is_some sid) ≡ true }
        ensures count { result ≡ spec.named_count (option_map (λ p. p.now) sub.entry) (option_map (λ p. p.now) sid.entry) self.old }
        ensures rows { self.new ≡ spec.named_ended (option_map (λ p. p.now) sub.entry) (option_map (λ p. p.now) sid.entry) self.old }
    {
        match (sub, sid) {
            (_, Some(sid)) => self.visits.take_out(&OfSid { sub, sid }),
            (Some(sub), None) => self.visits.take_out(&OfSub { sub }),
            (None, None) => unreachable!(),
        }
    }
}
