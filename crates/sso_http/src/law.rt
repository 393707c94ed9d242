// Lemmas about requests, replies and the answers of peers, for the crates above.

ghost use Rattle.std.specs.Prelude.{◌≡◌, ◌++◌, ℕ, true, List, [], ◌∷◌, codes};
ghost use Rattle.sso_base.specs.Words.{Text};
ghost use Rattle.sso_base.specs.declared.http.HttpReply.{HttpReply};
ghost use Rattle.sso_base.specs.declared.message.Answered.{Answered};
ghost use Rattle.http_reply.specs.Told.{Named};
ghost use Rattle.sso_http.specs.Cookies.{cookies_of};
ghost use Rattle.sso_http.specs.Lines.{IsHead};
ghost use Rattle.sso_http.specs.Peers.{IsAnswer, IsWhole};
ghost use Rattle.sso_http.specs.Presented.{presented, have_names, texts_under};
ghost use Rattle.sso_http.specs.Replies.{reply_bytes};
ghost use Rattle.sso_http.specs.Sendable.{IsSendable};
ghost use Rattle.sso_http.specs.Laws.{BytesHaveOneAnswer, WholeRequestsAreRead, RequestsWithoutACauseAreRead};

/// Bytes begin with at most one head, so they have at most one rest after a head.
pub fn heads_end_once()
    ensures { (head other rest more : List ℕ) → IsHead head → IsHead other → head ++ rest ≡ other ++ more → (head ≡ other) × (rest ≡ more) }
{}

/// The result of reading is a function of the bytes: two results for the same bytes are equal, and leave the same rest.
pub fn bytes_have_one_answer()
    ensures { BytesHaveOneAnswer }
{}

/// A whole request is read, whatever follows it, and that is left. Together with `bytes_have_one_answer`: it is refused only if
/// memory runs out or the source fails.
pub fn whole_requests_are_read()
    ensures { WholeRequestsAreRead }
{}

/// A request without a reason for a refusal is read, whatever follows it, and that is left. Its head has at most 16,384 bytes
/// and is one of HTTP/1.0 or HTTP/1.1 with at most 64 fields, without a transfer coding. The body has the length that the head
/// says, the target begins with `/`, and neither cookie of the server is present twice.
pub fn requests_without_a_cause_are_read()
    ensures { RequestsWithoutACauseAreRead }
{}

/// Bytes are at most one answer of a peer.
pub fn peers_have_one_answer()
    ensures { (bytes : List ℕ) (a b : Answered) → IsAnswer bytes a → IsAnswer bytes b → a ≡ b }
{}

/// An answer that is whole by its length is an answer of a peer.
pub fn whole_answers_are_answers()
    ensures { (bytes : List ℕ) → IsWhole bytes → (a : Answered) × IsAnswer bytes a }
{}

/// A peer reads a written reply as its status and its body, and by `peers_have_one_answer` as nothing else. The reply's texts
/// must be field values, and its status must have three digits.
pub fn written_replies_are_read()
    ensures { (r : HttpReply) → IsSendable r → IsAnswer (reply_bytes r) (record { status = r.status; body = r.body }) }
{}

/// The cookies that a user agent presents (RFC 6265, 5.4) are found under their names, in order.
pub fn presented_words_are_found()
    ensures { (name : Text) (words : List Named) → have_names words ≡ true → cookies_of name ((codes "Cookie", presented words) ∷ []) ≡ texts_under name words }
{}
