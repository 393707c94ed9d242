// Writing the document of a provider.

ghost use Rattle.std.specs.Prelude.{◌≡◌, ◌++◌, [], ◌∷◌, Ok, IfOk, OnOk};
ghost use Rattle.claim_set.specs.Building.{put_all};
ghost use Rattle.claim_set.specs.Reading.{claims_text as text_of_claims};
ghost use Rattle.oidc_words.specs.Scopes.{scope_words};
ghost use Rattle.discovery_doc.specs.Metadata as spec;
ghost use Rattle.discovery_doc.specs.Reading.{discovery_read};
ghost use Rattle.discovery_doc.specs.Document.{IsDocument};

use claim_set::{ClaimSet, claims_text};
use client_registry::{Provider, Registry, endpoint};
use oidc_words::{KEYS_PATH, SCOPE_WORDS, type_texts};
use sso_base::{NoMemory, Text, Texts};
use std::alloc::Global;

// Adds a text at the end.
fn push(texts: &mut Texts, alloc: Global, text: &str) -> Result<(), NoMemory>
    ensures { OnOk result (texts.new ≡ texts.old ++ text.now ∷ []) }
{
    texts.push(Text::new(alloc, text)?)
}

fn one(alloc: Global, first: &str) -> Result<Texts, NoMemory>
    ensures { IfOk result (λ t. t ≡ first.now ∷ []) }
{
    let mut texts = Texts::new(alloc);
    push(&mut texts, alloc, first)?;
    Ok(texts)
}

fn two(alloc: Global, first: &str, second: &str) -> Result<Texts, NoMemory>
    ensures { IfOk result (λ t. t ≡ first.now ∷ second.now ∷ []) }
{
    let mut texts = one(alloc, first)?;
    push(&mut texts, alloc, second)?;
    Ok(texts)
}

fn scopes(alloc: Global) -> Result<Texts, NoMemory>
    ensures { IfOk result (λ t. t ≡ scope_words) }
{
    let [openid, profile, email, address, phone] = SCOPE_WORDS;
    let mut texts = two(alloc, openid, profile)?;
    push(&mut texts, alloc, email)?;
    push(&mut texts, alloc, address)?;
    push(&mut texts, alloc, phone)?;
    Ok(texts)
}

fn put_endpoint(alloc: Global, set: &mut ClaimSet, provider: &Provider) -> Result<(), NoMemory>
    ensures { OnOk result (set.new ≡ put_all (spec.endpoint_entries provider.now) set.old) }
{
    set.put_text("authorization_endpoint", provider.authorize.as_str())?;
    set.put_flag("backchannel_logout_session_supported", true)?;
    set.put_flag("backchannel_logout_supported", true)?;
    set.put_flag("claims_parameter_supported", true)?;
    set.put_texts(
        "id_token_signing_alg_values_supported",
        &one(alloc, "HS256")?,
    )?;
    set.put_text("issuer", provider.issuer.as_str())
}

fn put_requests(alloc: Global, set: &mut ClaimSet, provider: &Provider) -> Result<(), NoMemory>
    ensures { OnOk result (set.new ≡ put_all (spec.request_entries provider.now) set.old) }
{
    let jwks = endpoint(alloc, provider.issuer.as_str(), KEYS_PATH)?;
    set.put_text("jwks_uri", jwks.as_str())?;
    set.put_texts(
        "request_object_signing_alg_values_supported",
        &one(alloc, "HS256")?,
    )?;
    set.put_flag("request_parameter_supported", true)?;
    set.put_flag("request_uri_parameter_supported", false)?;
    set.put_texts(
        "response_modes_supported",
        &two(alloc, "query", "fragment")?,
    )?;
    set.put_texts("response_types_supported", &type_texts(alloc)?)
}

fn put_subjects(alloc: Global, set: &mut ClaimSet) -> Result<(), NoMemory>
    ensures { OnOk result (set.new ≡ put_all spec.subject_entries set.old) }
{
    set.put_texts("scopes_supported", &scopes(alloc)?)?;
    set.put_texts(
        "subject_types_supported",
        &two(alloc, "public", "pairwise")?,
    )
}

fn put_tokens(alloc: Global, set: &mut ClaimSet, provider: &Provider) -> Result<(), NoMemory>
    ensures { OnOk result (set.new ≡ put_all (spec.token_entries provider.now) set.old) }
{
    set.put_text("token_endpoint", provider.token.as_str())?;
    set.put_texts(
        "token_endpoint_auth_methods_supported",
        &two(alloc, "client_secret_basic", "client_secret_post")?,
    )?;
    set.put_text_if("userinfo_endpoint", &provider.userinfo)
}

// The document of a provider.
#[tactic(auto, unfolding(crate::specs::Metadata::metadata))]
fn document(alloc: Global, provider: &Provider) -> Result<Text, NoMemory>
    ensures { IfOk result (λ t. t ≡ text_of_claims (spec.metadata provider.now)) }
{
    let mut set = ClaimSet::new(alloc);
    put_endpoint(alloc, &mut set, provider)?;
    put_requests(alloc, &mut set, provider)?;
    put_subjects(alloc, &mut set)?;
    put_tokens(alloc, &mut set, provider)?;
    claims_text(&set)
}

/// The discovery document of the registry's provider: a JSON object on one line, with its members in the order of their names
/// (OpenID Connect Discovery 1.0, 3). Reading it for its issuer returns the registry's provider.
#[tactic(auto, using(crate::proofs::Printed::registry_document, crate::proofs::Printed::registry_read))]
pub fn print_discovery(alloc: Global, registry: &Registry) -> Result<Text, NoMemory>
    ensures text { IfOk result (λ t. t ≡ text_of_claims (spec.metadata registry.now.provider)) }
    ensures document { IfOk result (λ t. IsDocument registry.now.provider.issuer t registry.now.provider) }
    ensures read { IfOk result (λ t. discovery_read registry.now.provider.issuer t ≡ Ok registry.now.provider) }
{
    document(alloc, registry.provider())
}
