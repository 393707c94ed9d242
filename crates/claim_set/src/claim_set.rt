// The claim set, setting names and removing them.

ghost use Rattle.std.specs.Prelude.{◌≡◌, ◌≤◌, IfOk, OnOk, OnErr, is_some, false, option_map, codes};
ghost use Rattle.serde_json.specs.Data.{no_members, put as with_member, object, string, number, unsigned, boolean, array, depth};
ghost use Rattle.serde_json.specs.Find.{get_member};
ghost use Rattle.serde_json.specs.View.{view};
ghost use Rattle.serde_json.specs.Written.{has_float};
ghost use Rattle.claim_set.specs.Building.{put_if, number_value, audience};
ghost use Rattle.claim_set.specs.Claims.{claims_depth, member_names, without, text_items, IsClaims, members_in};

use crate::walks::{depth_of, items_of_texts, names_in};
use serde_json::{Map, Value};
use sso_base::{NoMemory, Text, Texts};
use std::alloc::Global;
use std::marker::Model;

/// A claim set: a finite map from names to JSON values (RFC 7519, 4).
///
/// Its numbers are integers from -2^63 to 2^64 - 1, and its depth is at most 127.
#[derive(Drop)]
pub struct ClaimSet {
    pub(crate) alloc: Global,
    // An object, so that it can be passed to the writer by reference.
    pub(crate) value: Value,
}

impl Model for ClaimSet {
    ghost use Rattle.serde_json.specs.Data.{Members};
    ghost use Rattle.serde_json.specs.View.{view as view_of};
    ghost use Rattle.claim_set.specs.MembersCode.{members_code};
    ghost use Rattle.claim_set.specs.Claims.{members_in, IsClaims};

    ghost Value = { Members };

    ghost coded = { members_code };

    ghost view = { λ c. members_in (view_of c.value) };

    ghost invariant = { λ c. IsClaims (view_of c.value) };
}

impl ClaimSet {
    /// The empty claim set. It allocates nothing.
    pub fn new(alloc: Global) -> ClaimSet
        ensures { result ≡ no_members }
    {
        ClaimSet {
            alloc,
            value: Value::Object(Map::new(alloc)),
        }
    }

    /// How deep the set nests, from 1 to 127: 1, plus 1 for each level of objects and arrays inside it.
    pub fn depth(&self) -> u32
        ensures value { result ≡ claims_depth self.now }
        ensures most { result ≤ 127 }
    {
        depth_of(&self.value)
    }

    /// A copy of the set.
    pub fn copy(&self) -> Result<ClaimSet, NoMemory>
        ensures { IfOk result (λ c. c ≡ self.now) }
    {
        copied(self.alloc, &self.value)
    }

    /// Whether the set has a claim of this name, with any value.
    pub fn has(&self, name: &str) -> bool
        ensures { result ≡ is_some (get_member name.now self.now) }
    {
        self.value.get(name).is_some()
    }

    /// The names of the set, in the order of their bytes.
    pub fn names(&self) -> Result<Texts, NoMemory>
        ensures { IfOk result (λ names. names ≡ member_names self.now) }
    {
        let Some(map) = self.value.as_object() else {
            unreachable!()
        };
        names_in(self.alloc, map)
    }

    /// Removes the name. If it is absent, nothing changes.
    pub fn remove(&mut self, name: &str)
        ensures { self.new ≡ without name.now self.old }
    {
        let Some(map) = self.value.as_object_mut() else {
            unreachable!()
        };
        let _ = map.remove(name);
    }

    // Sets the name to a value.
    fn put(&mut self, name: &str, value: Value) -> Result<(), NoMemory>
        requires whole { has_float (view value) ≡ false }
        requires nests { depth (view value) ≤ 126 }
        ensures ok { OnOk result (self.new ≡ with_member name.now (view value) self.old) }
        ensures err { OnErr result (self.new ≡ self.old) }
    {
        let alloc = self.alloc;
        let Some(map) = self.value.as_object_mut() else {
            unreachable!()
        };
        serde_json::put(map, alloc, name, value)?;
        Ok(())
    }

    /// Sets the name to a text and replaces its old value. The other names keep their values. On an error nothing changes.
    pub fn put_text(&mut self, name: &str, value: &str) -> Result<(), NoMemory>
        ensures ok { OnOk result (self.new ≡ with_member name.now (string value.now) self.old) }
        ensures err { OnErr result (self.new ≡ self.old) }
    {
        let text = Value::try_from_str(self.alloc, value)?;
        self.put(name, text)
    }

    /// Sets the name to a whole number and replaces its old value. The other names keep their values. On an error nothing
    /// changes.
    pub fn put_number(&mut self, name: &str, value: u64) -> Result<(), NoMemory>
        ensures ok { OnOk result (self.new ≡ with_member name.now (number (unsigned value)) self.old) }
        ensures err { OnErr result (self.new ≡ self.old) }
    {
        let number = Value::from(value);
        self.put(name, number)
    }

    /// Sets the name to true or false and replaces its old value. The other names keep their values. On an error nothing
    /// changes.
    pub fn put_flag(&mut self, name: &str, value: bool) -> Result<(), NoMemory>
        ensures ok { OnOk result (self.new ≡ with_member name.now (boolean value) self.old) }
        ensures err { OnErr result (self.new ≡ self.old) }
    {
        let flag = Value::from(value);
        self.put(name, flag)
    }

    /// Sets the name to an array of texts, even if there is only one or none. It replaces the old value. The other names keep
    /// their values. On an error nothing changes.
    pub fn put_texts(&mut self, name: &str, value: &Texts) -> Result<(), NoMemory>
        ensures ok { OnOk result (self.new ≡ with_member name.now (array (text_items value.now)) self.old) }
        ensures err { OnErr result (self.new ≡ self.old) }
    {
        let items = items_of_texts(self.alloc, value)?;
        self.put(name, Value::Array(items))
    }

    /// Sets the name to a text, if there is one. Otherwise nothing changes.
    pub fn put_text_if(&mut self, name: &str, value: &Option<Text>) -> Result<(), NoMemory>
        ensures ok { OnOk result (self.new ≡ put_if name.now (option_map string value.now) self.old) }
        ensures err { OnErr result (self.new ≡ self.old) }
    {
        match value {
            Some(text) => self.put_text(name, text.as_str()),
            None => Ok(()),
        }
    }

    /// Sets the name to a whole number, if there is one. Otherwise nothing changes.
    pub fn put_number_if(&mut self, name: &str, value: Option<u64>) -> Result<(), NoMemory>
        ensures ok { OnOk result (self.new ≡ put_if name.now (option_map number_value value) self.old) }
        ensures err { OnErr result (self.new ≡ self.old) }
    {
        match value {
            Some(number) => self.put_number(name, number),
            None => Ok(()),
        }
    }

    /// Sets `aud`, the audience: one text is written as a string, none or several as an array (RFC 7519, 4.1.3).
    pub fn put_audience(&mut self, value: &Texts) -> Result<(), NoMemory>
        ensures ok { OnOk result (self.new ≡ with_member (codes "aud") (audience value.now) self.old) }
        ensures err { OnErr result (self.new ≡ self.old) }
    {
        if value.count() == 1 {
            self.put_text("aud", value.at(0))
        } else {
            self.put_texts("aud", value)
        }
    }

    /// Sets the name to a claim set and replaces its old value. The other names keep their values. [`ClaimSet::depth`] tests
    /// the precondition.
    pub fn put_set(&mut self, name: &str, value: ClaimSet) -> Result<(), NoMemory>
        requires { claims_depth value ≤ 126 }
        ensures ok { OnOk result (self.new ≡ with_member name.now (object value) self.old) }
        ensures err { OnErr result (self.new ≡ self.old) }
    {
        self.put(name, value.value)
    }
}

// A copy of the claim set that a JSON value is.
pub(crate) fn copied(alloc: Global, value: &Value) -> Result<ClaimSet, NoMemory>
    requires { IsClaims (view value.now) }
    ensures { IfOk result (λ c. c ≡ members_in (view value.now)) }
{
    Ok(ClaimSet {
        alloc,
        value: value.clone()?,
    })
}
