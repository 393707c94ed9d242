// Laws about request objects, for the crates above.

ghost use Rattle.std.specs.Prelude.{◌≡◌, ℕ, List, Ok, Err};
ghost use Rattle.claim_set.specs.Fitting.{ClaimsFit};
ghost use Rattle.jws_compact.specs.declared.no.JwsNo.{JwsNo};
ghost use Rattle.client_registry.specs.declared.records.Client.{Client};
ghost use Rattle.client_keys.specs.Opening.{verdict_for};
ghost use Rattle.request_params.specs.declared.params.Params.{Params};
ghost use Rattle.request_object.specs.declared.no.ObjNo.TheVariants as no;
ghost use Rattle.request_object.specs.Request.{request_members, request_text};
ghost use Rattle.request_object.specs.Sealing.{HasTexts, IsSealable};
ghost use Rattle.request_object.specs.Reading.{request_read};
ghost use Rattle.request_object.specs.Object.{IsRequestObject};
ghost use Rattle.request_object.specs.Laws.{UnreadableClaimsAreRefused, RefusedObjectsHaveTheFirstReason, ObjectsWithoutReasonAreAccepted};

/// A text is accepted if and only if it is a request object of the client for the issuer: a claim set, sealed under a
/// secret of the client, that contains the parameters (OpenID Connect Core 1.0, 6.1).
pub fn read_objects_are_request_objects()
    ensures object { (client : Client) (issuer t : List ℕ) (p : Params) → request_read client issuer t ≡ Ok p → IsRequestObject client issuer t p }
    ensures read { (client : Client) (issuer t : List ℕ) (p : Params) → IsRequestObject client issuer t p → request_read client issuer t ≡ Ok p }
{}

/// A text that is no request object is rejected for the first of these reasons. It is sealed under no secret of the client;
/// its payload is no claim set; or a condition of `request_refusals` is true, the first of which counts.
pub fn refused_objects_have_the_first_reason()
    ensures unopened { (client : Client) (issuer t : List ℕ) (e : JwsNo) → verdict_for client t ≡ Err e → request_read client issuer t ≡ Err (no.Jws e) }
    ensures unread { UnreadableClaimsAreRefused }
    ensures refused { RefusedObjectsHaveTheFirstReason }
    ensures accepted { ObjectsWithoutReasonAreAccepted }
{}

/// The claim set of a request object fits if the identifier, the issuer and the parameters are in UTF-8.
pub fn parameters_of_their_types_fit()
    ensures { (client : Client) (issuer : List ℕ) (p : Params) → HasTexts client issuer p → ClaimsFit (request_members client issuer p) }
{}

/// Reading the text that a client writes for parameters, with the same client and issuer, returns these parameters.
pub fn sealed_requests_are_read()
    ensures { (client : Client) (issuer : List ℕ) (p : Params) → IsSealable client issuer p → request_read client issuer (request_text client issuer p) ≡ Ok p }
{}
