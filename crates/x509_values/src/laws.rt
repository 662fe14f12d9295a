//! What the readers of timestamps read is what the grammar of RFC 6962 says.

ghost use Rattle.std.specs.Prelude.{ℕ};
ghost use Rattle.x509_der.specs.Laws.{IsMarkedField, IsMarkedElement, Anywhere};
ghost use Rattle.x509_der.specs.Promises.{is_ber_memory};
ghost use Rattle.x509_values.specs.Octets.{fixed, number_of, sized};
ghost use Rattle.x509_values.specs.Presentation.{PlainIsWritten, PlainListIsWritten};
ghost use Rattle.x509_values.specs.Sentence.{IsMarkedSentence};
ghost use Rattle.x509_values.specs.Timestamp.{timestamp};
ghost use Rattle.x509_values.specs.TimestampList.{timestamps};

/// The laws of the grammars that the readers of this crate promise to read by: what is read is what the grammar says and a
/// refusal is one that it gives, both ways; a timestamp is read from its own bytes alone, whatever stands behind it, and a list
/// from the first element alone; no refusal is want of memory; and the mark tells what stands plainly. The body is empty: the
/// contract is what is proved.
#[tactic(auto, using(crate::specs::Timestamp::timestamp_laws, crate::specs::TimestampList::timestamps_laws))]
pub const fn grammar_laws()
    ensures fixed { (n : ℕ) → IsMarkedField is_ber_memory Anywhere (fixed n) }
    ensures number { (n : ℕ) → IsMarkedField is_ber_memory Anywhere (number_of n) }
    ensures sized { IsMarkedField is_ber_memory Anywhere sized }
    ensures timestamp { IsMarkedSentence is_ber_memory timestamp }
    ensures timestamps { IsMarkedElement is_ber_memory timestamps }
    // What stands plainly is just what RFC 6962 writes.
    ensures written { PlainIsWritten }
    ensures list_written { PlainListIsWritten }
{}
