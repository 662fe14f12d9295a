//! What holds of the grammars that lists are read by.

ghost use Rattle.std.specs.Prelude.{◌≡◌, ◌++◌, List, ℕ};
ghost use Rattle.x509_der.specs.Laws.{IsBytes, IsMarkedElement};
ghost use Rattle.x509_der.specs.Promises.{IsFront};
ghost use Rattle.x509_fields.specs.Errors.{is_x509_memory};
ghost use Rattle.x509_fields.specs.Signed.{Signed};
ghost use Rattle.x509_lists.specs.RevokedCertificate.{revoked};
ghost use Rattle.x509_lists.specs.RevokedList.{revoked_list};
ghost use Rattle.x509_lists.specs.TbsCertList.{TbsList, tbs_list};
ghost use Rattle.x509_lists.specs.CertificateList.{certificate_list, ListStands};

/// The laws of the grammars that the readers of lists promise to read by: for each, what is read is what its grammar says and
/// a refusal is one that its grammar gives, both ways; a value is read from the first element alone, whatever stands behind
/// it; and no refusal is want of memory. A value's window is the bytes that it was read from. The body is empty: the contract
/// is what is proved.
pub const fn grammar_laws()
    ensures revoked { IsMarkedElement is_x509_memory revoked }
    ensures revoked_list { IsMarkedElement is_x509_memory revoked_list }
    ensures tbs_list { IsMarkedElement is_x509_memory tbs_list }
    ensures certificate_list { IsMarkedElement is_x509_memory certificate_list }
    ensures tbs_list_window { (place : List ℕ) (t : TbsList) (next : List ℕ) → tbs_list.Is place t next → place ≡ t.raw ++ next }
    // Of every front that is a list, and so of all that the reader accepts.
    ensures list_stands { (bytes : List ℕ) (s : Signed TbsList) (rest : List ℕ) → IsBytes bytes → IsFront certificate_list bytes s rest
        → ListStands bytes s rest }
{}
