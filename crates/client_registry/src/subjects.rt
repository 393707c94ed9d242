// The subjects of users at clients (OpenID Connect Core 1.0, 8).

ghost use Rattle.std.specs.Prelude.{◌≡◌, ◌<◌, [], ◌∷◌, ◌++◌, length, map, IfOk, OnOk, slice_get, Some};
ghost use Rattle.sha2.specs.Sha256.{sha256};
ghost use Rattle.sso_base.specs.Base64Url.{b64u};
ghost use Rattle.client_registry.specs.Rules as spec;

use crate::places::is_again;
use crate::records::{Client, User};
use crate::rules::sector_of;
use base64::engine::general_purpose::URL_SAFE_NO_PAD;
use configuration_rows::RegNo;
use configuration_rows::refusals::Refusals;
use sha2::{Digest, Sha256};
use sso_base::{NoMemory, Text};
use std::alloc::Global;
use std::marker::Model;

// The subjects of the users at one client, in order, seen as the list of them. They are many, and each is requested by its
// place.
#[derive(Drop)]
pub(crate) struct Subjects {
    texts: Vec<Text>,
}

impl Model for Subjects {
    ghost use Rattle.std.specs.Prelude.{List, ℕ};

    ghost Value = { List (List ℕ) };

    ghost view = { λ s. s.texts.items };
}

impl Subjects {
    fn new(alloc: Global) -> Subjects
        ensures { result ≡ [] }
    {
        Subjects {
            texts: Vec::new(alloc),
        }
    }

    fn push(&mut self, subject: Text) -> Result<(), NoMemory>
        ensures { OnOk result (self.new ≡ self.old ++ subject ∷ []) }
    {
        self.texts.push(subject)?;
        Ok(())
    }

    fn count(&self) -> usize
        ensures { result ≡ length self.now }
    {
        self.texts.len()
    }

    // The subject at this place, from 0.
    pub(crate) fn at(&self, place: usize) -> &Text
        requires { place < length self.now }
        ensures { slice_get self.now place ≡ Some result.now }
    {
        &self.texts[place]
    }

    // Equal subjects.
    pub(crate) fn copy(&self, alloc: Global) -> Result<Subjects, NoMemory>
        ensures { IfOk result (λ s. s ≡ self.now) }
    {
        let mut copied = Subjects::new(alloc);
        for text in &self.texts {
            copied.push(text.copy(alloc)?)?;
        }
        Ok(copied)
    }
}

// The SHA-256 of the sector, the user's id and the salt, with a zero byte between.
fn digest_of(salt: &[u8], sector: &str, id: &str) -> [u8; 32]
    ensures { result ≡ sha256 (sector.now ++ 0 ∷ (id.now ++ 0 ∷ salt.now)) }
{
    let mut hash = Sha256::new();
    hash.update(sector);
    hash.update(&[0u8]);
    hash.update(id);
    hash.update(&[0u8]);
    hash.update(salt);
    hash.finalize()
}

// The text of bytes in base64url without padding (RFC 4648, 5).
#[tactic(auto, unfolding(sso_base::specs::Base64Url::b64u))]
fn spelled(alloc: Global, bytes: &[u8]) -> Result<Text, NoMemory>
    ensures { IfOk result (λ t. t ≡ b64u bytes.now) }
{
    Ok(Text::from_string(URL_SAFE_NO_PAD.encode(alloc, bytes)?))
}

// The subject of a user at a pairwise client (Core 8.1).
#[tactic(auto, unfolding(crate::specs::Rules::pairwise_subject))]
fn pairwise_subject(alloc: Global, salt: &[u8], sector: &str, id: &str) -> Result<Text, NoMemory>
    ensures { IfOk result (λ t. t ≡ spec.pairwise_subject salt.now sector.now id.now) }
{
    let digest = digest_of(salt, sector, id);
    spelled(alloc, &digest)
}

// The subject of a user at a client.
fn subject_of(alloc: Global, salt: &[u8], client: &Client, user: &User) -> Result<Text, NoMemory>
    ensures { IfOk result (λ t. t ≡ spec.subject_of salt.now client.now user.now) }
{
    if client.pairwise {
        let sector = sector_of(client.redirect_urls.as_slice());
        return pairwise_subject(alloc, salt, sector, user.id.as_str());
    }
    user.id.copy(alloc)
}

// The subjects of the users at a client, in order.
fn subjects_at(
    alloc: Global,
    salt: &[u8],
    users: &[User],
    client: &Client,
) -> Result<Subjects, NoMemory>
    ensures { IfOk result (λ t. t ≡ spec.subjects_at salt.now users.now client.now) }
{
    let mut subjects = Subjects::new(alloc);
    for user in users {
        subjects.push(subject_of(alloc, salt, client, user)?)?;
    }
    Ok(subjects)
}

// The first place of the text.
#[tactic(auto, using(sso_base::proofs::ListSteps::drop_at))]
fn text_place(texts: &Subjects, text: &str) -> Option<usize>
    ensures { result ≡ spec.text_place text.now texts.now }
{
    for place in 0..texts.count() {
        if texts.at(place).as_str() == text {
            return Some(place);
        }
    }
    None
}

// The id of the user at a place.
fn id_at(alloc: Global, users: &[User], place: usize) -> Result<Text, NoMemory>
    ensures { IfOk result (λ t. t ≡ spec.id_of (slice_get users.now place)) }
{
    match users.get(place) {
        Some(user) => user.id.copy(alloc),
        None => Text::new(alloc, ""),
    }
}

// Notes that the users at two places have one subject, where they are two.
fn note_clash(
    refusals: &mut Refusals,
    client: &Client,
    users: &[User],
    place: usize,
    first: Option<usize>,
) -> Result<(), NoMemory>
    ensures { OnOk result (refusals.new ≡ refusals.old ++ spec.clash_at client.now users.now place first) }
{
    if !is_again(place, first) {
        return Ok(());
    }
    let alloc = refusals.alloc();
    let earlier = match first {
        Some(first) => first,
        None => place,
    };
    refusals.note(RegNo::SubjectClash(
        client.id.copy(alloc)?,
        id_at(alloc, users, earlier)?,
        id_at(alloc, users, place)?,
    ))
}

fn judge_subjects(
    refusals: &mut Refusals,
    client: &Client,
    users: &[User],
    subjects: &Subjects,
) -> Result<(), NoMemory>
    ensures { OnOk result (refusals.new ≡ refusals.old ++ spec.clashes client.now users.now subjects.now) }
{
    for place in 0..subjects.count() {
        let first = text_place(subjects, subjects.at(place).as_str());
        note_clash(refusals, client, users, place, first)?;
    }
    Ok(())
}

// The subjects of the users at each client, and the errors of the clients at which two users have the same one.
#[tactic(auto, unfolding(crate::specs::Rules::subjects_refusals))]
pub(crate) fn subjects_of(
    refusals: &mut Refusals,
    salt: &[u8],
    users: &[User],
    clients: &[Client],
) -> Result<Vec<Subjects>, NoMemory>
    ensures subjects { IfOk result (λ v. v.items ≡ map (spec.subjects_at salt.now users.now) clients.now) }
    ensures refusals { OnOk result (refusals.new ≡ refusals.old ++ spec.subjects_refusals salt.now users.now clients.now) }
{
    let mut subjects = Vec::new(refusals.alloc());
    for client in clients {
        let row = subjects_at(refusals.alloc(), salt, users, client)?;
        judge_subjects(refusals, client, users, &row)?;
        subjects.push(row)?;
    }
    Ok(subjects)
}
