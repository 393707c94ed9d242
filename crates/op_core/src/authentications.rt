// The login in tokens.

ghost use Rattle.std.specs.Prelude.{◌≡◌};
ghost use Rattle.op_answer.specs.Authentications.{session_authentication, code_authentication};

use code_grant::{CodeRow, SessionRow};
use op_issue::Authentication;

// The login of a session.
pub(crate) fn authentication_of_session(session: &SessionRow) -> Authentication
    ensures { result ≡ session_authentication session.now }
{
    Authentication {
        user: session.user,
        sid: session.sid,
        auth_time: session.auth_time,
    }
}

// The login that a code was issued for.
pub(crate) fn authentication_of_code(code: &CodeRow) -> Authentication
    ensures { result ≡ code_authentication code.now }
{
    Authentication {
        user: code.user,
        sid: code.sid,
        auth_time: code.auth_time,
    }
}
