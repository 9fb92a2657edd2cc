//! What holds of packets and of the words of requests.

ghost use Rattle.std.specs.Prelude.{◌≡◌, ◌≢◌, ◌≤◌, ◌++◌, ◌∷◌, [], ℕ, List, Some, length};
ghost use Rattle.gdb_remote.specs.Frames.{checksum, escaped, framed};
ghost use Rattle.gdb_remote.specs.Hexadecimal.{pair_value};
ghost use Rattle.gdb_remote.specs.Readings.{Reading, events_of, reading_after};
ghost use Rattle.gdb_remote.specs.Words.{all_words, found_word, word_text};
ghost use Rattle.gdb_remote.specs.declared.reader.PacketEvent.TheVariants.{Packet, Damaged};
ghost use Rattle.gdb_remote.specs.declared.reader.ReaderState.TheVariants.{Between};
ghost use Rattle.gdb_remote.specs.declared.words.Keyword.{Keyword as Words};

/// What a reader makes of packets. A caller uses the clauses; the call does nothing.
pub fn packet_law()
    // A packet that is sent whole is read as its body, and ends nothing else.
    ensures packet { (r : Reading) (body : List ℕ) → r.phase ≡ Between → length body ≤ 4096
        → events_of r (framed body) ≡ Packet ∷ [] }
    ensures body { (r : Reading) (body : List ℕ) → r.phase ≡ Between → length body ≤ 4096
        → (reading_after r (framed body)).body ≡ body }
    ensures between { (r : Reading) (body : List ℕ) → r.phase ≡ Between → length body ≤ 4096
        → (reading_after r (framed body)).phase ≡ Between }
    // One with other digits than those of its checksum is damaged.
    ensures damaged { (r : Reading) (body : List ℕ) (high low : ℕ) → r.phase ≡ Between
        → length body ≤ 4096 → pair_value high low ≢ Some (checksum (escaped body))
        → events_of r (36 ∷ (escaped body ++ 35 ∷ high ∷ low ∷ [])) ≡ Damaged ∷ [] }
    // It is all one in which pieces the bytes come.
    ensures pieces { (r : Reading) (one other : List ℕ)
        → events_of r (one ++ other) ≡ events_of r one ++ events_of (reading_after r one) other }
    ensures goes_on { (r : Reading) (one other : List ℕ)
        → reading_after r (one ++ other) ≡ reading_after (reading_after r one) other }
{}

/// A request that begins with a word is read as one of this word, whatever stands after it. A
/// caller uses the clause; the call does nothing.
pub fn word_law()
    ensures { (w : Words) (rest : List ℕ)
        → found_word all_words (word_text w ++ rest) ≡ Some (w, rest) }
{}
