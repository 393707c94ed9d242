//! Why a command is refused, and the outcome.

ghost use Rattle.std.specs.Prelude.{◌≡◌, ◌∷◌, ◌++◌, Some, IfOk, codes};
ghost use Rattle.std.specs.Fmt.{DisplaysOnOk, decimal};
ghost use Rattle.sso.specs.Answer.{registry_name, trace_name};
ghost use Rattle.sso.specs.Asked as spec;
ghost use Rattle.sso.specs.Refused.{refusal_line, refusal_status, refusal_answer};

use crate::outcome::Outcome;
use client_registry::RegNo;
use discovery_doc::DiscNo;
use jws_compact::JwsNo;
use oidc_replay::TraceNo;
use sso_base::{Blob, NoMemory, Text};
use std::alloc::Global;
use std::error::Error;
use std::fmt;

/// Why a command is refused. It is displayed as the line that the program prints, without its line feed.
#[derive(Drop)]
pub enum Refusal {
    /// The configuration is rejected.
    Configuration(RegNo),
    /// The configuration has no party with the requested name.
    NoParty,
    /// The trace is rejected.
    Trace(TraceNo),
    /// The secret is empty, or longer than 128 bytes.
    Secret,
    /// The token is not sealed under the secret.
    Token(JwsNo),
    /// The metadata of the provider have more than 65,536 bytes.
    MetadataSize,
    /// The metadata of the provider are rejected.
    Metadata(DiscNo),
}

impl Refusal {
    /// The exit status of a command that is refused for this.
    fn status(&self) -> u8
        ensures { result ≡ refusal_status self.now }
    {
        match self {
            Refusal::Configuration(_) => 3,
            Refusal::NoParty => 3,
            Refusal::Trace(_) => 4,
            Refusal::Secret => 10,
            Refusal::Token(_) => 10,
            Refusal::MetadataSize => 10,
            Refusal::Metadata(_) => 10,
        }
    }
}

// ---- the line

// Writes a name and a value.
fn write_value<W: fmt::Write>(f: &mut fmt::Formatter<W>, name: &str, value: &Text) -> fmt::Result
    ensures { DisplaysOnOk W.write_str_gives f.old result (Some (name.now ++ value.now)) f.new }
{
    f.write_str(name)?;
    f.write_str(value.as_str())
}

// Writes that two users have the same subject at a client.
fn write_clash<W: fmt::Write>(
    f: &mut fmt::Formatter<W>,
    client: &Text,
    user: &Text,
    other: &Text,
) -> fmt::Result
    ensures { DisplaysOnOk W.write_str_gives f.old result
        (Some (codes "SubjectClash " ++ client.now ++ 32 ∷ user.now ++ 32 ∷ other.now)) f.new }
{
    write_value(f, "SubjectClash ", client)?;
    write_value(f, " ", user)?;
    write_value(f, " ", other)
}

// Writes the name of a configuration's refusal, with its values.
#[tactic(auto, unfolding(crate::specs::Answer::registry_name))]
fn write_registry<W: fmt::Write>(f: &mut fmt::Formatter<W>, why: &RegNo) -> fmt::Result
    ensures { DisplaysOnOk W.write_str_gives f.old result (Some (registry_name why.now)) f.new }
{
    match why {
        RegNo::NoMemory => f.write_str(""),
        RegNo::TooLong => f.write_str("TooLong"),
        RegNo::NotToml => f.write_str("NotToml"),
        RegNo::Version => f.write_str("Version"),
        RegNo::Missing(path) => write_value(f, "Missing ", path),
        RegNo::WrongKind(path) => write_value(f, "WrongKind ", path),
        RegNo::BadUrl(path) => write_value(f, "BadUrl ", path),
        RegNo::Twice(name) => write_value(f, "Twice ", name),
        RegNo::ShortSecret(client) => write_value(f, "ShortSecret ", client),
        RegNo::TooMany(kind) => write_value(f, "TooMany ", kind),
        RegNo::MixedHosts(client) => write_value(f, "MixedHosts ", client),
        RegNo::UnknownClient(party) => write_value(f, "UnknownClient ", party),
        RegNo::SubjectClash(client, user, other) => write_clash(f, client, user, other),
    }
}

// Writes a name and the number of a line.
fn write_line<W: fmt::Write>(f: &mut fmt::Formatter<W>, name: &str, line: u64) -> fmt::Result
    ensures { DisplaysOnOk W.write_str_gives f.old result (Some (name.now ++ decimal line)) f.new }
{
    write!(f, "{name}{line}")
}

// Writes the name of a trace's refusal, with the number of its first bad line.
#[tactic(auto, unfolding(crate::specs::Answer::trace_name))]
fn write_trace<W: fmt::Write>(f: &mut fmt::Formatter<W>, why: &TraceNo) -> fmt::Result
    ensures { DisplaysOnOk W.write_str_gives f.old result (Some (trace_name why.now)) f.new }
{
    match why {
        TraceNo::NoMemory => f.write_str(""),
        TraceNo::Size => f.write_str("Size"),
        TraceNo::Header => f.write_str("Header"),
        TraceNo::LineTooLong(line) => write_line(f, "LineTooLong ", *line),
        TraceNo::Word(line) => write_line(f, "Word ", *line),
        TraceNo::Number(line) => write_line(f, "Number ", *line),
        TraceNo::Backwards(line) => write_line(f, "Backwards ", *line),
        TraceNo::NoSuchReply(line) => write_line(f, "NoSuchReply ", *line),
        TraceNo::NoSuchParty(line) => write_line(f, "NoSuchParty ", *line),
    }
}

// The name of a refusal of metadata.
#[tactic(auto, unfolding(crate::specs::Asked::metadata_name))]
fn metadata_name(why: &DiscNo) -> &'static str
    ensures { result.now ≡ spec.metadata_name why.now }
{
    match why {
        DiscNo::NoMemory => "",
        DiscNo::NotObject => "NotObject",
        DiscNo::Missing(_) => "Missing",
        DiscNo::IssuerDiffers => "IssuerDiffers",
        DiscNo::NoHs256 => "NoHs256",
        DiscNo::BadUrl(_) => "BadUrl",
    }
}

impl fmt::Display for Refusal {
    ghost output = { λ r. Some (refusal_line r) };

    fn fmt<W: fmt::Write>(&self, f: &mut fmt::Formatter<W>) -> fmt::Result {
        match self {
            Refusal::Configuration(why) => {
                f.write_str("configuration ")?;
                write_registry(f, why)
            }
            Refusal::NoParty => f.write_str("configuration NoParty"),
            Refusal::Trace(why) => {
                f.write_str("trace ")?;
                write_trace(f, why)
            }
            Refusal::Secret => f.write_str("token Secret"),
            Refusal::Token(why) => {
                f.write_str("token ")?;
                f.write_str(why.name())
            }
            Refusal::MetadataSize => f.write_str("discovery Size"),
            Refusal::Metadata(why) => {
                f.write_str("discovery ")?;
                f.write_str(metadata_name(why))
            }
        }
    }
}

impl fmt::Debug for Refusal {
    fn fmt<W: fmt::Write>(&self, f: &mut fmt::Formatter<W>) -> fmt::Result {
        fmt::Display::fmt(self, f)
    }
}

impl Error for Refusal {}

// ---- the outcome

/// The outcome of a refused command: its status, and the line of the refusal.
pub fn refused(alloc: Global, why: &Refusal) -> Result<Outcome, NoMemory>
    ensures { IfOk result (λ outcome. outcome ≡ refusal_answer why.now) }
{
    let text = format!(in alloc; "{why}\n")?;
    Ok(Outcome {
        status: why.status(),
        text: Blob::new(alloc, text.as_bytes())?,
    })
}
