// Laws about discovery documents, for the crates above.

ghost use Rattle.std.specs.Prelude.{◌≡◌, ℕ, List, Ok, Err};
ghost use Rattle.claim_set.specs.declared.no.ClaimNo.{ClaimNo};
ghost use Rattle.claim_set.specs.Reading.{claims_read, claims_text};
ghost use Rattle.client_registry.specs.declared.records.Provider.{Provider};
ghost use Rattle.client_registry.specs.Configuration.{Configuration};
ghost use Rattle.client_registry.specs.Registered.{IsRegistry};
ghost use Rattle.discovery_doc.specs.declared.no.DiscNo.TheVariants as no;
ghost use Rattle.discovery_doc.specs.Metadata.{metadata};
ghost use Rattle.discovery_doc.specs.Reading.{discovery_read};
ghost use Rattle.discovery_doc.specs.Document.{IsDocument};
ghost use Rattle.discovery_doc.specs.Printed.{IsPrintable};
ghost use Rattle.discovery_doc.specs.Laws.{RefusedDocumentsHaveTheFirstReason, DocumentsWithoutReasonAreAccepted};

/// A text is accepted if and only if it is a discovery document of the requested provider, and the result is this provider.
pub fn read_documents_have_the_metadata()
    ensures document { (issuer b : List ℕ) (p : Provider) → discovery_read issuer b ≡ Ok p → IsDocument issuer b p }
    ensures read { (issuer b : List ℕ) (p : Provider) → IsDocument issuer b p → discovery_read issuer b ≡ Ok p }
{}

/// A text that is no such document is rejected for the first reason: it is no claim set, or a condition of `absences` or then
/// of `faults` is true. Of these conditions, the first counts.
pub fn refused_documents_have_the_first_reason()
    ensures unread { (issuer b : List ℕ) (e : ClaimNo) → claims_read b ≡ Err e → discovery_read issuer b ≡ Err no.NotObject }
    ensures refused { RefusedDocumentsHaveTheFirstReason }
    ensures accepted { DocumentsWithoutReasonAreAccepted }
{}

/// A document is only accepted for the issuer that it names.
pub fn read_documents_name_the_provider()
    ensures { (issuer b : List ℕ) (p : Provider) → discovery_read issuer b ≡ Ok p → p.issuer ≡ issuer }
{}

/// The document that is written for a registry's provider is accepted for its issuer, and the result is this provider. The same
/// is true for any provider whose endpoints satisfy the rule for URLs.
pub fn printed_metadata_is_read()
    ensures registry { (c : Configuration) → IsRegistry c → discovery_read c.provider.issuer (claims_text (metadata c.provider)) ≡ Ok c.provider }
    ensures printable { (p : Provider) → IsPrintable p → discovery_read p.issuer (claims_text (metadata p)) ≡ Ok p }
{}
