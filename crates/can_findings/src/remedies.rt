//! The remedy of each diagnostic.
ghost use Rattle.std.specs.Prelude.{◌≡◌};
ghost use Rattle.can_findings.specs.Remedies.{remedy};

use can_diagnostics::Code;

/// The usual remedy for a code.
#[tactic(auto, unfolding(crate::specs::Remedies::remedy))]
pub fn remedy(code: Code) -> &'static [u8]
    ensures { result.now ≡ remedy code }
{
    match code {
        Code::BadIdentifier => b"correct the identifier; bit 31 marks an extended (29-bit) one",
        Code::SharedIdentifier => b"remove one message, or correct its identifier",
        Code::SharedName => b"rename one message",
        Code::SharedGroup => b"keep one message per parameter group (PGN)",
        Code::Outside => b"check start bit, length and byte order, or the message's length",
        Code::Overlap => {
            b"correct the position of one signal, or the multiplexor values that select it"
        }
        Code::NoSwitch =>
            b"mark one signal as multiplexor with M, or correct the SG_MUL_VAL_ entry",
        Code::BadMuxRow =>
            b"correct the SG_MUL_VAL_ entry, or mark the multiplexor that it names with M",
        Code::SwitchLoop => b"break the loop of multiplexors",
        Code::Float => b"nothing is wrong, but candesk doesn't decode floats",
        Code::Long => {
            b"candesk decodes at most 64 bits; split the signal if you need its values"
        }
        Code::Scale => b"look for a typo in factor or offset",
        Code::UnknownNode => b"add the node to BU_, or correct its name",
        Code::ValueOutOfRange => b"correct the value, or the signal's length or sign",
        Code::RepeatedValue => b"remove one of the value's descriptions",
        Code::DanglingRow => b"correct the entry's identifier or name, or remove it",
        Code::RepeatedRow => b"remove one of the entries; the first one counts",
        Code::UnknownAttribute => b"add a BA_DEF_ for the attribute, or remove the entry",
    }
}
