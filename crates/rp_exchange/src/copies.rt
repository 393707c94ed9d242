// Copies of errors.

ghost use Rattle.std.specs.Prelude.{◌≡◌, IfOk};

use crate::no::RpNo;
use claim_set::ClaimNo;
use id_token::IdNo;
use logout_token::LogoutNo;
use sso_base::NoMemory;
use std::alloc::Global;
use token_endpoint::TokensNo;
use userinfo::InfoNo;

// A copy of an error of claims.
fn copied_claims(alloc: Global, why: &ClaimNo) -> Result<ClaimNo, NoMemory>
    ensures { IfOk result (λ n. n ≡ why.now) }
{
    Ok(match why {
        ClaimNo::NoMemory => ClaimNo::NoMemory,
        ClaimNo::NotJson => ClaimNo::NotJson,
        ClaimNo::NotObject => ClaimNo::NotObject,
        ClaimNo::WrongKind(name) => ClaimNo::WrongKind(name.copy(alloc)?),
    })
}

/// A copy of an error of an ID Token.
pub fn copied_id(alloc: Global, why: &IdNo) -> Result<IdNo, NoMemory>
    ensures { IfOk result (λ n. n ≡ why.now) }
{
    Ok(match why {
        IdNo::NoMemory => IdNo::NoMemory,
        IdNo::Jws(why) => IdNo::Jws(*why),
        IdNo::Claims(why) => IdNo::Claims(copied_claims(alloc, why)?),
        IdNo::Missing(name) => IdNo::Missing(name.copy(alloc)?),
        IdNo::Issuer => IdNo::Issuer,
        IdNo::Audience => IdNo::Audience,
        IdNo::Azp => IdNo::Azp,
        IdNo::Expired(exp) => IdNo::Expired(*exp),
        IdNo::TooOld(iat) => IdNo::TooOld(*iat),
        IdNo::FromFuture(iat) => IdNo::FromFuture(*iat),
        IdNo::Nonce => IdNo::Nonce,
        IdNo::AuthTime => IdNo::AuthTime,
        IdNo::TokenHash => IdNo::TokenHash,
        IdNo::CodeHash => IdNo::CodeHash,
    })
}

/// A copy of an error of a token response.
pub fn copied_tokens(alloc: Global, why: &TokensNo) -> Result<TokensNo, NoMemory>
    ensures { IfOk result (λ n. n ≡ why.now) }
{
    Ok(match why {
        TokensNo::Status(status) => TokensNo::Status(*status),
        TokensNo::Claims(why) => TokensNo::Claims(copied_claims(alloc, why)?),
        TokensNo::Missing(name) => TokensNo::Missing(name.copy(alloc)?),
        TokensNo::NotBearer => TokensNo::NotBearer,
        TokensNo::NoMemory => TokensNo::NoMemory,
    })
}

/// A copy of an error of a UserInfo response.
pub fn copied_info(alloc: Global, why: &InfoNo) -> Result<InfoNo, NoMemory>
    ensures { IfOk result (λ n. n ≡ why.now) }
{
    Ok(match why {
        InfoNo::NoMemory => InfoNo::NoMemory,
        InfoNo::Status(status) => InfoNo::Status(*status),
        InfoNo::Claims(why) => InfoNo::Claims(copied_claims(alloc, why)?),
        InfoNo::NoSub => InfoNo::NoSub,
    })
}

/// A copy of an error of a logout token.
pub fn copied_logout(alloc: Global, why: &LogoutNo) -> Result<LogoutNo, NoMemory>
    ensures { IfOk result (λ n. n ≡ why.now) }
{
    Ok(match why {
        LogoutNo::NoMemory => LogoutNo::NoMemory,
        LogoutNo::Jws(why) => LogoutNo::Jws(*why),
        LogoutNo::Claims(why) => LogoutNo::Claims(copied_claims(alloc, why)?),
        LogoutNo::WrongTyp => LogoutNo::WrongTyp,
        LogoutNo::Missing(name) => LogoutNo::Missing(name.copy(alloc)?),
        LogoutNo::NoEvent => LogoutNo::NoEvent,
        LogoutNo::HasNonce => LogoutNo::HasNonce,
        LogoutNo::NamesNobody => LogoutNo::NamesNobody,
        LogoutNo::Issuer => LogoutNo::Issuer,
        LogoutNo::Audience => LogoutNo::Audience,
        LogoutNo::Expired(exp) => LogoutNo::Expired(*exp),
        LogoutNo::TooOld(iat) => LogoutNo::TooOld(*iat),
        LogoutNo::FromFuture(iat) => LogoutNo::FromFuture(*iat),
    })
}

impl RpNo {
    /// A copy of the error.
    pub fn copy(&self, alloc: Global) -> Result<RpNo, NoMemory>
        ensures { IfOk result (λ n. n ≡ self.now) }
    {
        Ok(match self {
            RpNo::Twice(name) => RpNo::Twice(name.copy(alloc)?),
            RpNo::NoState => RpNo::NoState,
            RpNo::StaleLogin => RpNo::StaleLogin,
            RpNo::WrongBrowser => RpNo::WrongBrowser,
            RpNo::Provider(code) => RpNo::Provider(*code),
            RpNo::Missing(part) => RpNo::Missing(*part),
            RpNo::Id(why) => RpNo::Id(copied_id(alloc, why)?),
            RpNo::StalePending => RpNo::StalePending,
            RpNo::Tokens(why) => RpNo::Tokens(copied_tokens(alloc, why)?),
            RpNo::Info(why) => RpNo::Info(copied_info(alloc, why)?),
            RpNo::SubjectDiffers => RpNo::SubjectDiffers,
            RpNo::Full(table) => RpNo::Full(*table),
            RpNo::Logout(why) => RpNo::Logout(copied_logout(alloc, why)?),
            RpNo::Seen(place) => RpNo::Seen(*place),
            RpNo::EndedSid(place) => RpNo::EndedSid(*place),
        })
    }
}
