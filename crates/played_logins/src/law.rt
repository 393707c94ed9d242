//! A law of plays, as the contract of a function that does nothing.

ghost use Rattle.std.specs.Prelude.{true, false, codes};
ghost use Rattle.played_logins.specs.Played.{IsPlayedLogin};
ghost use Rattle.played_logins.specs.Traces as trace;

/// The theorem about replays is not empty. Each of these traces can be read, and its play is a whole login of this response type, in a
/// world of so many places that keeps all premises and ends with a session. The play ends with no premise that fails.
pub fn whole_logins_are_played()
    ensures id_token { IsPlayedLogin trace.by_response (codes "id_token") true 5 }
    ensures id_token_token { IsPlayedLogin trace.by_response (codes "id_token token") false 5 }
    ensures code { IsPlayedLogin trace.by_code (codes "code") false 7 }
    ensures code_with_info { IsPlayedLogin trace.by_code_with_info (codes "code") true 9 }
    ensures code_id_token { IsPlayedLogin trace.by_code_with_info (codes "code id_token") true 9 }
    ensures code_token { IsPlayedLogin trace.by_code_with_info (codes "code token") true 9 }
    ensures code_id_token_token { IsPlayedLogin trace.by_code_with_info (codes "code id_token token") true 9 }
{}
