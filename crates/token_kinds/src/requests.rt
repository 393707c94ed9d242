// No request object is accepted as a token, and no token as a request object.

ghost use Rattle.token_kinds.specs.RequestLaws.{RequestObjectsAreNoIdTokens, RequestObjectsAreNotReadAsIdTokens, SealedRequestObjectsAreNoIdTokens};
ghost use Rattle.token_kinds.specs.RequestLaws.{RequestObjectsHaveNoSubject, RequestObjectsAreNoLogoutTokens, RequestObjectsAreNotReadAsLogoutTokens};
ghost use Rattle.token_kinds.specs.RequestLaws.{SealedRequestObjectsAreNoLogoutTokens, RequestObjectsHaveNoTimeOfIssue, IdTokensAreNoRequestObjects};
ghost use Rattle.token_kinds.specs.RequestLaws.{IdTokensAreNotReadAsRequestObjects, SealedIdTokensAreNoRequestObjects, IdTokensAreOfAnotherIssuer};
ghost use Rattle.token_kinds.specs.RequestLaws.{LogoutTokensAreNoRequestObjects, LogoutTokensAreNotReadAsRequestObjects, SealedLogoutTokensAreNoRequestObjects};
ghost use Rattle.token_kinds.specs.RequestLaws.{LogoutTokensAreOfAnotherIssuer};

/// A request object of a client is not a good ID Token of any issuer whose name differs from the client's id, for any keys,
/// rules and moment. The reason is its `iss`, which is the client if it is present. A text sealed as a request object is not
/// even read as an ID Token, for any key, because it has no `sub`.
pub fn request_objects_are_no_id_tokens()
    ensures apart { RequestObjectsAreNoIdTokens }
    ensures read { RequestObjectsAreNotReadAsIdTokens }
    ensures sealed { SealedRequestObjectsAreNoIdTokens }
    ensures refused { RequestObjectsHaveNoSubject }
{}

/// A request object of a client is not a good logout token of any issuer whose name differs from the client's id, for any keys,
/// recipient and moment. The reason is its `iss`, which is the client if it is present. A text sealed as a request object is
/// not even read as a logout token, for any key, because it has neither `iat` nor `jti`.
pub fn request_objects_are_no_logout_tokens()
    ensures apart { RequestObjectsAreNoLogoutTokens }
    ensures read { RequestObjectsAreNotReadAsLogoutTokens }
    ensures sealed { SealedRequestObjectsAreNoLogoutTokens }
    ensures refused { RequestObjectsHaveNoTimeOfIssue }
{}

/// An ID Token of an issuer whose name differs from the client's id is no request object of that client, for any key of the
/// token. If it is sealed under a secret of the client, and no request parameter is among its other claims, it is rejected for
/// its issuer.
pub fn id_tokens_are_no_request_objects()
    ensures apart { IdTokensAreNoRequestObjects }
    ensures read { IdTokensAreNotReadAsRequestObjects }
    ensures sealed { SealedIdTokensAreNoRequestObjects }
    ensures refused { IdTokensAreOfAnotherIssuer }
{}

/// A logout token of an issuer whose name differs from the client's id is no request object of that client, for any key of the
/// token. If it is sealed under a secret of the client, it is rejected for its issuer.
pub fn logout_tokens_are_no_request_objects()
    ensures apart { LogoutTokensAreNoRequestObjects }
    ensures read { LogoutTokensAreNotReadAsRequestObjects }
    ensures sealed { SealedLogoutTokensAreNoRequestObjects }
    ensures refused { LogoutTokensAreOfAnotherIssuer }
{}
