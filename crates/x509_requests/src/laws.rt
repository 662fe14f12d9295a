//! What holds of the grammars that requests are read by.

ghost use Rattle.std.specs.Prelude.{◌≡◌, ◌++◌, List, ℕ};
ghost use Rattle.x509_der.specs.Laws.{IsBytes, IsMarkedElement};
ghost use Rattle.x509_der.specs.Promises.{IsFront};
ghost use Rattle.x509_fields.specs.Errors.{is_x509_memory};
ghost use Rattle.x509_fields.specs.Signed.{Signed};
ghost use Rattle.x509_requests.specs.CriAttribute.{attribute};
ghost use Rattle.x509_requests.specs.PasswordTexts.{password};
ghost use Rattle.x509_requests.specs.RequestInfo.{RequestInfo, request_info};
ghost use Rattle.x509_requests.specs.Request.{certification_request, RequestStands};

/// The laws of the grammars that the readers of requests promise to read by: for each, what is read is what its grammar says and
/// a refusal is one that its grammar gives, both ways; a value is read from the first element alone, whatever stands behind
/// it; and no refusal is want of memory. A value's window is the bytes that it was read from. The body is empty: the contract
/// is what is proved.
pub const fn grammar_laws()
    ensures attribute { IsMarkedElement is_x509_memory attribute }
    ensures password { IsMarkedElement is_x509_memory password }
    ensures request_info { IsMarkedElement is_x509_memory request_info }
    ensures certification_request { IsMarkedElement is_x509_memory certification_request }
    ensures info_window { (place : List ℕ) (i : RequestInfo) (next : List ℕ) → request_info.Is place i next → place ≡ i.raw ++ next }
    // Of every front that is a request, and so of all that the reader accepts.
    ensures request_stands { (bytes : List ℕ) (s : Signed RequestInfo) (rest : List ℕ) → IsBytes bytes → IsFront certification_request bytes s rest
        → RequestStands bytes s rest }
{}
