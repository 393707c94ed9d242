// The fields of the forms on the login page and the consent page.

/// The field of both forms with the text of the turn.
pub const TURN_FIELD: &str = "turn";

/// The field of the login form with the id of the user.
pub const USER_FIELD: &str = "user";

/// The field of the login form with the password.
pub const PASSWORD_FIELD: &str = "password";

/// The field of the consent form that states whether the user consents.
pub const AGREE_FIELD: &str = "agree";

/// The value of that field if the user consents.
pub const AGREE_VALUE: &str = "yes";
