//! Laws of packets' spellings, and worked rows.
ghost use Rattle.std.specs.Prelude.{◌≡◌, ℕ, List, ◌++◌};
ghost use Rattle.turn_defs.specs.Packets.{packet, IsPacket};
ghost use Rattle.packet_codec.specs.Rows.{InsertRow, JoinRow, JoinedRow, ReplyRow, PromiseRow, NackRow, ChosenRow};
ghost use Rattle.turn_defs.specs.declared.packet.Packet.{Packet};

/// Each spelling is of one packet, and none begins another.
#[tactic(auto, using(crate::proofs::PacketParts::packet_apart))]
pub fn one_spelling()
    ensures one { (p q : Packet) → IsPacket p → IsPacket q → packet p ≡ packet q → p ≡ q }
    ensures apart { (p q : Packet) (s t : List ℕ) → IsPacket p → IsPacket q → packet p ++ s ≡ packet q ++ t → p ≡ q }
{}

/// The tag stands first, and then the fields in order.
pub fn worked_rows()
    ensures insert { InsertRow }
    ensures join { JoinRow }
    ensures joined { JoinedRow }
    ensures reply { ReplyRow }
    ensures promise { PromiseRow }
    ensures nack { NackRow }
    ensures chosen { ChosenRow }
{}
