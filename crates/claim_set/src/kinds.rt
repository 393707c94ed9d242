// Claims by name: each is absent, of the requested kind, or of another kind.

ghost use Rattle.std.specs.Prelude.{◌≡◌, ◌⊎◌, Ok, Err, IfOk, IfErr, is_some};
ghost use Rattle.serde_json.specs.Find.{get_member};
ghost use Rattle.claim_set.specs.Kinds.{text_claim, number_claim, flag_claim, texts_claim, member_claim};

use crate::claim_set::{ClaimSet, copied};
use crate::no::ClaimNo;
use crate::walks::texts_in;
use sso_base::{Text, Texts};

impl ClaimSet {
    /// The text of this name. `None` if and only if the name is absent, [`ClaimNo::WrongKind`] if and only if its value is not
    /// a string.
    pub fn text(&self, name: &str) -> Result<Option<Text>, ClaimNo>
        ensures answers { IfOk result (λ o. text_claim name.now self.now ≡ Ok o) }
        ensures there { IfOk result (λ o. is_some o ≡ is_some (get_member name.now self.now)) }
        ensures refuses { IfErr result (λ e. (e ≡ ClaimNo.NoMemory) ⊎ (text_claim name.now self.now ≡ Err e)) }
        ensures wrong_kind { IfErr result (λ e. (e ≡ ClaimNo.NoMemory) ⊎ (e ≡ ClaimNo.WrongKind name.now)) }
    {
        match self.value.get(name) {
            None => Ok(None),
            Some(value) => match value.as_str() {
                Some(text) => Ok(Some(Text::new(self.alloc, text)?)),
                None => Err(ClaimNo::WrongKind(Text::new(self.alloc, name)?)),
            },
        }
    }

    /// The number of this name, from 0 to 2^40 - 1. `None` if and only if the name is absent, [`ClaimNo::WrongKind`] if and
    /// only if its value is not such a number.
    pub fn number(&self, name: &str) -> Result<Option<u64>, ClaimNo>
        ensures answers { IfOk result (λ o. number_claim name.now self.now ≡ Ok o) }
        ensures there { IfOk result (λ o. is_some o ≡ is_some (get_member name.now self.now)) }
        ensures refuses { IfErr result (λ e. (e ≡ ClaimNo.NoMemory) ⊎ (number_claim name.now self.now ≡ Err e)) }
        ensures wrong_kind { IfErr result (λ e. (e ≡ ClaimNo.NoMemory) ⊎ (e ≡ ClaimNo.WrongKind name.now)) }
    {
        match self.value.get(name) {
            None => Ok(None),
            Some(value) => match value.as_u64() {
                Some(number) if number < 1 << 40 => Ok(Some(number)),
                _ => Err(ClaimNo::WrongKind(Text::new(self.alloc, name)?)),
            },
        }
    }

    /// The flag of this name. `None` if and only if the name is absent, [`ClaimNo::WrongKind`] if and only if its value is
    /// neither true nor false.
    pub fn flag(&self, name: &str) -> Result<Option<bool>, ClaimNo>
        ensures answers { IfOk result (λ o. flag_claim name.now self.now ≡ Ok o) }
        ensures there { IfOk result (λ o. is_some o ≡ is_some (get_member name.now self.now)) }
        ensures refuses { IfErr result (λ e. (e ≡ ClaimNo.NoMemory) ⊎ (flag_claim name.now self.now ≡ Err e)) }
        ensures wrong_kind { IfErr result (λ e. (e ≡ ClaimNo.NoMemory) ⊎ (e ≡ ClaimNo.WrongKind name.now)) }
    {
        match self.value.get(name) {
            None => Ok(None),
            Some(value) => match value.as_bool() {
                Some(flag) => Ok(Some(flag)),
                None => Err(ClaimNo::WrongKind(Text::new(self.alloc, name)?)),
            },
        }
    }

    /// The texts of this name: those of an array of strings, in order, or the one text of a string. `None` if and only if the
    /// name is absent, [`ClaimNo::WrongKind`] if and only if its value is neither.
    pub fn texts(&self, name: &str) -> Result<Option<Texts>, ClaimNo>
        ensures answers { IfOk result (λ o. texts_claim name.now self.now ≡ Ok o) }
        ensures there { IfOk result (λ o. is_some o ≡ is_some (get_member name.now self.now)) }
        ensures refuses { IfErr result (λ e. (e ≡ ClaimNo.NoMemory) ⊎ (texts_claim name.now self.now ≡ Err e)) }
        ensures wrong_kind { IfErr result (λ e. (e ≡ ClaimNo.NoMemory) ⊎ (e ≡ ClaimNo.WrongKind name.now)) }
    {
        match self.value.get(name) {
            None => Ok(None),
            Some(value) => match texts_in(self.alloc, value)? {
                Some(texts) => Ok(Some(texts)),
                None => Err(ClaimNo::WrongKind(Text::new(self.alloc, name)?)),
            },
        }
    }

    /// A copy of the claim set of this name. `None` if and only if the name is absent, [`ClaimNo::WrongKind`] if and only if
    /// its value is not an object.
    pub fn member(&self, name: &str) -> Result<Option<ClaimSet>, ClaimNo>
        ensures answers { IfOk result (λ o. member_claim name.now self.now ≡ Ok o) }
        ensures there { IfOk result (λ o. is_some o ≡ is_some (get_member name.now self.now)) }
        ensures refuses { IfErr result (λ e. (e ≡ ClaimNo.NoMemory) ⊎ (member_claim name.now self.now ≡ Err e)) }
        ensures wrong_kind { IfErr result (λ e. (e ≡ ClaimNo.NoMemory) ⊎ (e ≡ ClaimNo.WrongKind name.now)) }
    {
        match self.value.get(name) {
            None => Ok(None),
            Some(value) => {
                if value.is_object() {
                    Ok(Some(copied(self.alloc, value)?))
                } else {
                    Err(ClaimNo::WrongKind(Text::new(self.alloc, name)?))
                }
            }
        }
    }
}
