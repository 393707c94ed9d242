// Laws about sealed texts, for the crates above.

ghost use Rattle.std.specs.Prelude.{◌≡◌, ◌≤◌, ◌==◌, ℕ, List, length, is_some, Some, Ok};
ghost use Rattle.base64.specs.GeneralPurpose.{IsBytes};
ghost use Rattle.jws_compact.specs.declared.sealing.Typ.{Typ};
ghost use Rattle.jws_compact.specs.declared.unsealing.Unsealed.{Unsealed};
ghost use Rattle.jws_compact.specs.Jws.{dots, three_parts, header_bytes, Sealed, seal_text, opened, written, Opens, payload_in, verdict};

/// A text has three parts if and only if it has two dots.
pub fn texts_have_two_dots()
    ensures { (t : List ℕ) → is_some (three_parts t) ≡ (dots t == 2) }
{}

/// A text is accepted if and only if it is sealed. Its header and payload are unique.
pub fn sealed_texts_open()
    ensures opens { (k h p t : List ℕ) → Sealed k h p t → verdict k t ≡ Ok (opened h p) }
    ensures sealed { (k t : List ℕ) (u : Unsealed) → verdict k t ≡ Ok u → Opens k t u }
    ensures header_is_determined { (k l h g p q t : List ℕ) → Sealed k h p t → Sealed l g q t → h ≡ g }
    ensures payload_is_determined { (k l h g p q t : List ℕ) → Sealed k h p t → Sealed l g q t → p ≡ q }
{}

/// A text that is accepted under some key has the payload that it is accepted with, whichever key that is.
pub fn accepted_texts_have_their_payload()
    ensures { (k t : List ℕ) (u : Unsealed) → verdict k t ≡ Ok u → payload_in t ≡ Some u.payload }
{}

/// Each text that is written is sealed. Reading it returns the payload and the `typ` of the kind.
pub fn written_texts_open()
    ensures sealed { (k p : List ℕ) (typ : Typ) → IsBytes p → length p ≤ 6000 → Sealed k (header_bytes typ) p (seal_text k typ p) }
    ensures opens { (k p : List ℕ) (typ : Typ) → IsBytes p → length p ≤ 6000 → verdict k (seal_text k typ p) ≡ Ok (written typ p) }
{}
