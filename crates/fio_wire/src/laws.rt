//! Laws of the definitions that the contracts cite: a function states one in its contract, and does nothing.
ghost use Rattle.std.specs.Prelude.{◌≡◌, ◌≤◌, ◌<◌, ◌++◌, ◌∷◌, [], ℕ, Bool, List, true, false, length, map, flat_map};
ghost use Rattle.std.specs.List.{AllByRecursion};
ghost use Rattle.fio_wire.specs.Detection.{flips};
ghost use Rattle.fio_wire.specs.Frames.{Frame, Damage, address_in, control_in, frame_of, is_checked, is_frame, message_of_frame, with_check};
ghost use Rattle.fio_wire.specs.Octets.{HasNoFlag, Reading, said_in, said_of, start, stuffed, with_flags};
ghost use Rattle.fio_wire.specs.Bits as bits;
ghost use Rattle.fio_wire.specs.Laws.{Arrival, ArrivesNoFlag, AreOctets, BitFate, CanSend, Fate, Flips, IsBitFate, IsDetectable, IsFate, Octet, OneFlip, arrivals_with_flags, arrives, arrives_by_bits, bits_between, part_between, said_in_arrivals, said_of_arrivals};
ghost use Rattle.fio_wire.specs.Lengths.{TakesFewBits, TakesMostBits};
ghost use Rattle.fio_wire.specs.declared.limits.TheConstants.{FLAG};
ghost use Rattle.fio_wire.specs.declared.line_kind.LineKind.TheVariants.{Asynchronous, Synchronous};

/// A decoder says of a line of octets exactly what its parts say; what comes before the first flag and after the last says
/// nothing.
#[tactic(auto, using(crate::proofs::Lines::exact))]
pub fn lines_are_read_by_parts()
    ensures { (noise : List ℕ) (parts : List (List ℕ)) (rest : List ℕ)
        → HasNoFlag noise → AllByRecursion HasNoFlag parts → HasNoFlag rest
        → said_of start (noise ++ FLAG ∷ (with_flags parts ++ rest)) ≡ flat_map said_in parts }
{}

/// After a flag a decoder says what it would say if the line began there, whatever came before.
#[tactic(auto, using(crate::proofs::Lines::resynchronised))]
pub fn flags_resynchronise()
    ensures { (reading : Reading) (noise rest : List ℕ)
        → said_of reading (noise ++ FLAG ∷ rest) ≡ said_of reading (noise ++ FLAG ∷ []) ++ said_of start (FLAG ∷ rest) }
{}

/// A part that lost an octet is damage, if the loss is reported, whatever else of the part arrives. Losses do not change what
/// other parts say.
#[tactic(auto, using(crate::proofs::Losses::exact))]
pub fn losses_are_damage()
    ensures { (noise : List Arrival) (parts : List (List Arrival)) (rest : List Arrival)
        → ArrivesNoFlag noise → AllByRecursion ArrivesNoFlag parts → ArrivesNoFlag rest
        → said_of_arrivals start (noise ++ Octet FLAG ∷ (arrivals_with_flags parts ++ rest)) ≡ flat_map said_in_arrivals parts }
{}

/// What is sent has no flag in it, and is read.
#[tactic(auto, using(crate::proofs::Sent::sent_frame))]
pub fn sent_frames_are_read()
    ensures { (address control : ℕ) (message : List ℕ) → CanSend address control message
        → HasNoFlag (stuffed (frame_of address control message)) × (said_in (stuffed (frame_of address control message)) ≡ Frame (frame_of address control message) ∷ []) }
{}

/// The frame of a message has its address, its control octet and the message.
#[tactic(auto, using(crate::proofs::Sent::frame_has))]
pub fn frames_have_their_messages()
    ensures { (address control : ℕ) (message : List ℕ)
        → (address_in (frame_of address control message) ≡ address)
        × ((control_in (frame_of address control message) ≡ control) × (message_of_frame (frame_of address control message) ≡ message)) }
{}

/// Octets with the right check end with the check of those before.
#[tactic(auto, using(crate::proofs::Sent::right_is_one))]
pub fn right_checks_are_one()
    ensures { (front : List ℕ) (low high : ℕ) → AreOctets (front ++ low ∷ high ∷ [])
        → is_checked (front ++ low ∷ high ∷ []) ≡ true → front ++ low ∷ high ∷ [] ≡ with_check front }
{}

/// The check finds these kinds of damage.
#[tactic(auto, using(crate::proofs::Sent::found))]
pub fn damage_is_found()
    ensures { (errors : List Bool) (sent got : List ℕ) → Flips errors sent got → IsDetectable errors
        → is_checked sent ≡ true → is_checked got ≡ false }
{}

/// One to three flips are of these kinds, in a frame of up to 4,095 octets.
#[tactic(auto, using(crate::proofs::Sent::few))]
pub fn few_flips_are_detectable()
    ensures { (errors : List Bool) → 1 ≤ flips errors → flips errors ≤ 3 → length errors < 32768 → IsDetectable errors }
{}

/// Over a line of octets that damages frames only so, and no flag, each frame arrives whole or not at all, in order.
#[tactic(auto, using(crate::proofs::Sent::arrive))]
pub fn frames_arrive_whole_or_not_at_all()
    ensures { (fates : List Fate) → AllByRecursion IsFate fates
        → said_of start (FLAG ∷ with_flags (map part_between fates)) ≡ map arrives fates }
{}

/// A decoder says of a line of bits, after any noise that ends with a flag, exactly what its parts say, aborts and idle lines
/// among them.
#[tactic(auto, using(crate::proofs::Aborts::exact_with_aborts))]
pub fn bit_lines_are_read_by_parts()
    ensures { (reading : bits.Reading) (noise : List Bool) (parts : List (List Bool)) → AllByRecursion (bits.HasNoBitFlag 0) parts
        → bits.said_of reading (noise ++ (bits.flag_bits ++ flat_map (λ part. part ++ bits.flag_bits) parts))
        ≡ bits.said_of reading (noise ++ bits.flag_bits) ++ flat_map bits.said_between parts }
{}

/// After a flag a decoder of bits says what one says that begins there, whatever bits came before.
#[tactic(auto, using(crate::proofs::BitLines::resynchronised))]
pub fn bit_flags_resynchronise()
    ensures { (reading : bits.Reading) (noise rest : List Bool)
        → bits.said_of reading (noise ++ (bits.flag_bits ++ rest)) ≡ bits.said_of reading (noise ++ bits.flag_bits) ++ bits.said_of bits.fresh rest }
{}

/// What is sent as bits has no six ones in a row, and is read.
#[tactic(auto, using(crate::proofs::SentBits::sent_bits))]
pub fn sent_bits_are_read()
    ensures { (address control : ℕ) (message : List ℕ) → CanSend address control message
        → bits.HasNoSix 0 (bits.bit_stuffed 0 (bits.line_bits (frame_of address control message)))
        × (bits.said_in (bits.bit_stuffed 0 (bits.line_bits (frame_of address control message))) ≡ Frame (frame_of address control message) ∷ []) }
{}

/// Over a line of bits whose damage changes no flag, makes no flag and no abort, and leaves as many bits without stuffing, each
/// frame arrives whole or not at all, in order.
#[tactic(auto, using(crate::proofs::SentBits::bits_arrive))]
pub fn frames_arrive_whole_or_not_at_all_by_bits()
    ensures { (reading : bits.Reading) (noise : List Bool) (fates : List BitFate) → AllByRecursion IsBitFate fates
        → bits.said_of reading (noise ++ (bits.flag_bits ++ flat_map (λ part. part ++ bits.flag_bits) (map bits_between fates)))
        ≡ bits.said_of reading (noise ++ bits.flag_bits) ++ map arrives_by_bits fates }
{}

/// One flipped bit of a frame on a line of bits is found, if it makes no six ones in a row, which would be a flag or an abort.
/// Two are not: on such a line one flip can put a bit in or take one out.
#[tactic(auto, using(crate::proofs::FlipFound::one_flip_is_found))]
pub fn one_flip_is_found_by_bits()
    ensures { (octets : List ℕ) (part : List Bool) → AreOctets octets → is_frame octets ≡ true
        → OneFlip (bits.bit_stuffed 0 (bits.line_bits octets)) part → bits.HasNoSix 0 part
        → bits.said_in part ≡ Damage ∷ [] }
{}

/// A message takes no more bits than the most.
#[tactic(auto, using(crate::proofs::Lengths::takes_few_bits))]
pub fn messages_take_few_bits()
    ensures { TakesFewBits }
{}

/// There are messages that take the most: on an asynchronous line nine octets, where each octet of the frame is stuffed, and
/// on a synchronous line none, where all bits of the frame are ones.
#[tactic(auto, using(crate::proofs::Lengths::nine_octets, crate::proofs::Lengths::no_octets))]
pub fn messages_can_take_the_most_bits()
    ensures asynchronous { (stop : ℕ) → TakesMostBits (Asynchronous stop) 126 126 (126 ∷ 125 ∷ 125 ∷ 126 ∷ 126 ∷ 126 ∷ 125 ∷ 126 ∷ 126 ∷ []) }
    ensures synchronous { TakesMostBits Synchronous 255 255 [] }
{}
