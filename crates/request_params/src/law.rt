// Laws about authorization requests, for the crates above.

ghost use Rattle.std.specs.Prelude.{◌≡◌, ◌++◌, ℕ, List, Option, Ok, Err, Some};
ghost use Rattle.sso_base.specs.Words.{Text};
ghost use Rattle.request_params.specs.declared.name.ParamName.{ParamName};
ghost use Rattle.request_params.specs.declared.no.AskNo.{AskNo};
ghost use Rattle.request_params.specs.declared.params.Params.{Params};
ghost use Rattle.request_params.specs.Names.{AreTexts, name_of, name_text, param_of, with_param};
ghost use Rattle.request_params.specs.Location.{query_mark};
ghost use Rattle.request_params.specs.Reading.{request_read, HasRequest, RefusesForm};
ghost use Rattle.request_params.specs.Merging.{request_merged, IsMerged, RefusesMerge};
ghost use Rattle.request_params.specs.Printing.{request_form, request_location, IsPrinted};
ghost use Rattle.request_params.specs.Laws.{OtherParametersAreKept, SignedParametersAreWhole};

/// Each parameter has its own name, and two sets of parameters are equal if they are equal name by name. Setting one parameter
/// leaves the others unchanged.
pub fn parameters_have_names()
    ensures named { (name : ParamName) → name_of (name_text name) ≡ Some name }
    ensures written { (t : Text) (name : ParamName) → name_of t ≡ Some name → name_text name ≡ t }
    ensures same { (p q : Params) → ((name : ParamName) → param_of name p ≡ param_of name q) → p ≡ q }
    ensures set { (name : ParamName) (value : Option Text) (params : Params) → param_of name (with_param name value params) ≡ value }
    ensures kept { OtherParametersAreKept }
{}

/// A form is accepted if and only if no parameter name occurs twice in it with values, and the result is the values of these
/// names. The result is UTF-8.
pub fn forms_have_their_parameters()
    ensures stands { (form : List ℕ) (params : Params) → request_read form ≡ Ok params → HasRequest form params }
    ensures read { (form : List ℕ) (params : Params) → HasRequest form params → request_read form ≡ Ok params }
    ensures texts { (form : List ℕ) (params : Params) → request_read form ≡ Ok params → AreTexts params }
{}

/// A form is rejected if and only if a name is repeated, and the error holds the first such name.
pub fn refused_forms_repeat_a_name()
    ensures cause { (form : List ℕ) (e : AskNo) → request_read form ≡ Err e → RefusesForm form e }
    ensures refused { (form : List ℕ) (e : AskNo) → RefusesForm form e → request_read form ≡ Err e }
{}

/// Parameters are merged if and only if the client and the response type outside the request object agree with those in it, and
/// the scope outside has the word `openid`. Each parameter is that of the request object, or the outer one if the object has
/// none.
pub fn merged_parameters_agree()
    ensures agree { (outer inner params : Params) → request_merged outer inner ≡ Ok params → IsMerged outer inner params }
    ensures merged { (outer inner params : Params) → IsMerged outer inner params → request_merged outer inner ≡ Ok params }
{}

/// The causes of a rejected merge, in order: the client is absent outside the request object or differs in it; the same for the
/// response type; the scope outside does not have the word `openid`.
pub fn refused_merges_have_a_cause()
    ensures cause { (outer inner : Params) (e : AskNo) → request_merged outer inner ≡ Err e → RefusesMerge outer inner e }
    ensures refused { (outer inner : Params) (e : AskNo) → RefusesMerge outer inner e → request_merged outer inner ≡ Err e }
{}

/// A request's location is the endpoint with the form of the request as its query. If everything in the request is written,
/// reading this form returns the request.
pub fn printed_requests_are_read()
    ensures location { (endpoint : Text) (params : Params) → request_location endpoint params ≡ endpoint ++ query_mark endpoint ++ request_form params }
    ensures read { (params : Params) → IsPrinted params → request_read (request_form params) ≡ Ok params }
{}

/// Merging the parameters outside a request object with those in it gives the whole request, together with the object.
pub fn signed_requests_are_whole()
    ensures { SignedParametersAreWhole }
{}
