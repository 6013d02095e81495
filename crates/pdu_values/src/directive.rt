ghost use Rattle.std.specs.Prelude.{◌≡◌};
ghost use Rattle.pdu_values.specs.Directive.{directive_code, directive_with_code};

/// The kinds of file directive (CCSDS 727.0-B-5, 5.2.1).
#[derive(Clone, Copy, Debug, PartialEq, Eq)]
pub enum Directive {
    Eof = 4,
    Finished = 5,
    Ack = 6,
    Metadata = 7,
    Nak = 8,
    Prompt = 9,
    KeepAlive = 12,
}

impl Directive {
    /// The directive code.
    pub fn code(self) -> u8
        ensures { result ≡ directive_code self }
    {
        self as u8
    }

    /// The directive with this code, None for an unknown code.
    pub fn with_code(code: u8) -> Option<Directive>
        ensures { result ≡ directive_with_code code }
    {
        match code {
            4 => Some(Directive::Eof),
            5 => Some(Directive::Finished),
            6 => Some(Directive::Ack),
            7 => Some(Directive::Metadata),
            8 => Some(Directive::Nak),
            9 => Some(Directive::Prompt),
            12 => Some(Directive::KeepAlive),
            _ => None,
        }
    }
}
