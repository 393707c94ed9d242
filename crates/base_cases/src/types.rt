// The texts of response types.

use case_lines::given;
use oidc_words::Types;
use sso_base::NoMemory;
use std::alloc::Global;

/// `types|CODE|ID_TOKEN|TOKEN`: the text of a response type.
pub fn types(alloc: Global, code: &str, id_token: &str, token: &str) -> Result<String, NoMemory> {
    let types = Types {
        code: given(code).is_some(),
        id_token: given(id_token).is_some(),
        token: given(token).is_some(),
    };
    Ok(format!(in alloc; "{:?}", types.text())?)
}
