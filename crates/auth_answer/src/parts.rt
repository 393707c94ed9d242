// The parameters of a response as texts, by their names.

ghost use Rattle.std.specs.Prelude.{◌≡◌, find};
ghost use Rattle.std.specs.Str.{bytes_eq};
ghost use Rattle.auth_answer.specs.Parts as spec;

use sso_base::Text;

// The name of a parameter.
#[derive(Clone, Copy, PartialEq, Eq)]
pub(crate) enum PartName {
    State,
    Error,
    Code,
    AccessToken,
    IdToken,
}

const PART_NAMES: [PartName; 5] = [
    PartName::State,
    PartName::Error,
    PartName::Code,
    PartName::AccessToken,
    PartName::IdToken,
];

impl PartName {
    fn as_str(self) -> &'static str
        ensures { result.now ≡ spec.part_text self }
    {
        match self {
            PartName::State => "state",
            PartName::Error => "error",
            PartName::Code => "code",
            PartName::AccessToken => "access_token",
            PartName::IdToken => "id_token",
        }
    }

    // The name with this text.
    pub(crate) fn read(text: &str) -> Option<PartName>
        ensures { result ≡ spec.part_name_of text.now }
    {
        find_name(&PART_NAMES, text)
    }
}

// The first of these names with this text.
fn find_name(names: &[PartName], text: &str) -> Option<PartName>
    ensures { result ≡ find (λ name. bytes_eq text.now (spec.part_text name)) names.now }
{
    for name in names {
        if text == name.as_str() {
            return Some(*name);
        }
    }
    None
}

// The parameters that are present, as texts.
#[derive(Drop)]
pub(crate) struct Parts {
    pub(crate) state: Option<Text>,
    pub(crate) error: Option<Text>,
    pub(crate) code: Option<Text>,
    pub(crate) access: Option<Text>,
    pub(crate) id: Option<Text>,
}

impl Parts {
    // No parameters.
    pub(crate) fn new() -> Parts
        ensures { result ≡ spec.no_parts }
    {
        Parts {
            state: None,
            error: None,
            code: None,
            access: None,
            id: None,
        }
    }

    // The parameter of this name, if it is present.
    pub(crate) fn get(&self, name: PartName) -> &Option<Text>
        ensures { result.now ≡ spec.part_of name self.now }
    {
        match name {
            PartName::State => &self.state,
            PartName::Error => &self.error,
            PartName::Code => &self.code,
            PartName::AccessToken => &self.access,
            PartName::IdToken => &self.id,
        }
    }

    // Sets the parameter of this name.
    pub(crate) fn set(&mut self, name: PartName, value: Option<Text>)
        ensures { self.new ≡ spec.with_part name value self.old }
    {
        match name {
            PartName::State => self.state = value,
            PartName::Error => self.error = value,
            PartName::Code => self.code = value,
            PartName::AccessToken => self.access = value,
            PartName::IdToken => self.id = value,
        }
    }
}
