//! What holds of the grammars that general names are read by.

ghost use Rattle.x509_der.specs.declared.header.Header.{Header};
ghost use Rattle.x509_der.specs.Laws.{AtEnd, IsMarkedElement, IsMarkedField};
ghost use Rattle.x509_fields.specs.Errors.{is_x509_memory};
ghost use Rattle.x509_general_names.specs.AlternativeNames.{general_names};
ghost use Rattle.x509_general_names.specs.GeneralName.{Alternative, alternative, general_name};

/// The laws of the grammars of general names: what is read is what the grammar says and a refusal is one that the grammar gives, both
/// ways, of the contents under each alternative, of a name and of names in a SEQUENCE; a name is read from its own element alone; and no
/// refusal is want of memory. So the value of a general name, which is what its contents are read as, is what its alternative says of
/// them. The body is empty: the contract is what is proved.
pub const fn grammar_laws()
    ensures alternatives { (a : Alternative) (h : Header) → IsMarkedField is_x509_memory AtEnd (alternative a h) }
    ensures general_name { IsMarkedElement is_x509_memory general_name }
    ensures general_names { IsMarkedElement is_x509_memory general_names }
{}
