// Laws about claim sets, for the crates above.

ghost use Rattle.std.specs.Prelude.{◌≡◌, ◌≤◌, ◌<◌, ◌+◌, ◌*◌, ◌^◌, ℕ, List, [], ◌∷◌, length, nat_lt, Bool, true, Some, None, Ok, Err};
ghost use Rattle.std.specs.List.{list_all};
ghost use Rattle.std.specs.Str.{IsUtf8};
ghost use Rattle.json.specs.Print.{quoted};
ghost use Rattle.serde_json.specs.Data.{Data, Members, no_members, put, depth, string, number, unsigned, boolean, array, object};
ghost use Rattle.serde_json.specs.Find.{get_member};
ghost use Rattle.serde_json.specs.Read.{read};
ghost use Rattle.claim_set.specs.declared.no.ClaimNo.TheVariants as no;
ghost use Rattle.claim_set.specs.Claims.{claims_depth, without, text_items};
ghost use Rattle.claim_set.specs.Kinds.{text_claim, number_claim, flag_claim, texts_claim, member_claim};
ghost use Rattle.claim_set.specs.Reading.{claims_text, claims_read, Reads, IsFirstWrong};
ghost use Rattle.claim_set.specs.Fitting.{Fits, InOrder, ClaimsFit, EntriesFit};
ghost use Rattle.claim_set.specs.Building.{Entry, audience, put_all, without_all, names, found, is_distinct, HasNone};
ghost use Rattle.claim_set.specs.Laws.{ClaimsLengthenTheText};

/// A text is read as certain claims if and only if it contains them. Their names are in order, each once, and they nest at most
/// 127 deep.
pub fn read_claims_have_their_text()
    ensures reads { (b : List ℕ) (ms : Members) → claims_read b ≡ Ok ms → Reads b ms }
    ensures read { (b : List ℕ) (ms : Members) → Reads b ms → claims_read b ≡ Ok ms }
    ensures in_order { (b : List ℕ) (ms : Members) → Reads b ms → InOrder ms }
    ensures nests { (b : List ℕ) (ms : Members) → Reads b ms → claims_depth ms ≤ 127 }
{}

/// If a text is rejected with a name, it is the text of an object. The name is the first, in the order of the bytes, whose
/// value contains a number that is not an integer.
pub fn refused_texts_name_the_first()
    ensures { (b k : List ℕ) → claims_read b ≡ Err (no.WrongKind k) → (ms : Members) × (read b ≡ Some (object ms)) × IsFirstWrong k ms }
{}

/// The text that is written for claims that fit is UTF-8, so its bytes are below 256. Reading it returns these claims.
pub fn written_claims_are_read()
    ensures utf8 { (ms : Members) → ClaimsFit ms → IsUtf8 (claims_text ms) }
    ensures bytes { (ms : Members) → ClaimsFit ms → list_all (λ x. nat_lt x 256) (claims_text ms) ≡ true }
    ensures read { (ms : Members) → ClaimsFit ms → claims_read (claims_text ms) ≡ Ok ms }
{}

/// Setting a name makes the text longer by at most the quoted name, the text of its value, and two bytes. A quoted text has at
/// most six bytes for each of its own, plus two.
pub fn written_claims_have_lengths()
    ensures put { ClaimsLengthenTheText }
    ensures text { (t : List ℕ) → length (quoted t) ≤ 6 * length t + 2 }
{}

/// Claims that fit still fit after setting one name or several to values that fit, and after removing a name.
pub fn fitting_claims_stay_fit()
    ensures none { ClaimsFit no_members }
    ensures put { (k : List ℕ) (d : Data) (ms : Members) → IsUtf8 k → Fits d → depth d ≤ 126 → ClaimsFit ms → ClaimsFit (put k d ms) }
    ensures put_all { (es : List Entry) (ms : Members) → EntriesFit es → ClaimsFit ms → ClaimsFit (put_all es ms) }
    ensures taken_out { (k : List ℕ) (ms : Members) → ClaimsFit ms → ClaimsFit (without k ms) }
{}

/// A put sets one name and leaves the others unchanged.
pub fn one_name_is_put()
    ensures set { (k : List ℕ) (d : Data) (ms : Members) → get_member k (put k d ms) ≡ Some d }
    ensures others { (q k : List ℕ) (d : Data) (ms : Members) → ¬ (q ≡ k) → get_member q (put k d ms) ≡ get_member q ms }
{}

/// Removing a name from claims that fit makes it absent and leaves the others unchanged.
pub fn one_name_is_taken_out()
    ensures absent { (k : List ℕ) (ms : Members) → ClaimsFit ms → get_member k (without k ms) ≡ None }
    ensures others { (q k : List ℕ) (ms : Members) → ¬ (q ≡ k) → get_member q (without k ms) ≡ get_member q ms }
{}

/// Names that are set one after another can be found, and removed again.
pub fn names_are_put_and_taken_out()
    ensures found { (q : List ℕ) (es : List Entry) (ms : Members) → get_member q (put_all es ms) ≡ found q es (get_member q ms) }
    ensures taken_out { (es : List Entry) (ms : Members) → is_distinct es ≡ true → HasNone (names es) ms → without_all (names es) (put_all es ms) ≡ ms }
{}

/// A claim that was set is read by its name with the same value. One text is also read as a list of one, and an audience as its
/// texts.
pub fn put_claims_are_read()
    ensures text { (k t : List ℕ) (ms : Members) → text_claim k (put k (string t) ms) ≡ Ok (Some t) }
    ensures number { (k : List ℕ) (n : ℕ) (ms : Members) → n < 2 ^ 40 → number_claim k (put k (number (unsigned n)) ms) ≡ Ok (Some n) }
    ensures flag { (k : List ℕ) (b : Bool) (ms : Members) → flag_claim k (put k (boolean b) ms) ≡ Ok (Some b) }
    ensures lone_text { (k t : List ℕ) (ms : Members) → texts_claim k (put k (string t) ms) ≡ Ok (Some (t ∷ [])) }
    ensures texts { (k : List ℕ) (ts : List (List ℕ)) (ms : Members) → texts_claim k (put k (array (text_items ts)) ms) ≡ Ok (Some ts) }
    ensures audience { (k : List ℕ) (ts : List (List ℕ)) (ms : Members) → texts_claim k (put k (audience ts) ms) ≡ Ok (Some ts) }
    ensures member { (k : List ℕ) (ns ms : Members) → member_claim k (put k (object ns) ms) ≡ Ok (Some ns) }
{}
