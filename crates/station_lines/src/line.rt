//! Writes one line. After an `Err` the line is not to be used.
ghost use Rattle.std.specs.Prelude.{◌≡◌, [], ◌∷◌, ◌++◌, IfOk, OnErr, OnOk, string_bytes, codes};
ghost use Rattle.json.specs.Token.{begin_object, end_object, key};
ghost use Rattle.json.specs.Print.{print};
ghost use Rattle.station_lines.specs.Letters.{safe_text};
ghost use Rattle.station_lines.specs.Members.{text_member, flag_member, number_member, octets_member, hex_member, moment_member, hexes_member, hex_strings, hex_string, numbers_member, number_token, number_tokens};

use crate::letters::push_safe;
use crate::moment::Moment;
use cfdp_types::Octets;
use json::Writer;
use station_names::member;
use std::alloc::{AllocError, Global};
use std::marker::Model;
use std::str;

// 2^53: up to here a double, in which many readers hold numbers, is exact for each whole number.
const EXACT_MOST: u64 = 9_007_199_254_740_992;

// A JSON object, member by member. Contracts see its tokens.
#[derive(Drop)]
pub(crate) struct Line {
    alloc: Global,
    writer: Writer,
}

impl Model for Line {
    ghost use Rattle.std.specs.Prelude.{◌≡◌, List, []};
    ghost use Rattle.json.specs.Token.{Token, tokens_code};

    ghost Value = { List Token };

    ghost coded = { tokens_code };

    ghost view = { λ l. l.writer.tokens };

    ghost invariant = { λ l. l.writer.before ≡ [] };
}

impl Line {
    pub(crate) fn begin(alloc: Global) -> Result<Line, AllocError>
        ensures { IfOk result (λ line. line ≡ begin_object ∷ []) }
    {
        let mut writer = Writer::new(Vec::new(alloc));
        writer.begin_object()?;
        Ok(Line { alloc, writer })
    }

    // Adds the line to a text, with a line feed.
    pub(crate) fn end(self, text: &mut String) -> Result<(), AllocError>
        ensures added { OnOk result (string_bytes text.new
            ≡ string_bytes text.old ++ (safe_text (print (self ++ end_object ∷ [])) ++ codes "\n")) }
        ensures kept { OnErr result (string_bytes text.new ≡ string_bytes text.old) }
    {
        let Line { alloc, mut writer } = self;
        writer.end_object()?;
        let Ok(printed) = String::from_utf8(writer.into_inner()) else {
            unreachable!()
        };
        let mut line = String::new(alloc);
        push_safe(&mut line, printed.as_str())?;
        line.push_str("\n")?;
        text.push_str(line.as_str())
    }

    #[tactic(auto, unfolding(crate::specs::Members::text_member))]
    pub(crate) fn text(&mut self, name: &str, value: &str) -> Result<(), AllocError>
        ensures { OnOk result (self.new ≡ self.old ++ text_member name.now value.now) }
    {
        self.writer.key(name)?;
        self.writer.string(value)
    }

    #[tactic(auto, unfolding(crate::specs::Members::flag_member))]
    pub(crate) fn flag(&mut self, name: &str, value: bool) -> Result<(), AllocError>
        ensures { OnOk result (self.new ≡ self.old ++ flag_member name.now value) }
    {
        self.writer.key(name)?;
        self.writer.boolean(value)
    }

    // A number, and the same as text if many readers would round it.
    #[tactic(auto, unfolding(crate::specs::Members::number_member, crate::specs::Members::text_member))]
    pub(crate) fn number(&mut self, name: &str, value: u64) -> Result<(), AllocError>
        ensures { OnOk result (self.new ≡ self.old ++ number_member name.now value) }
    {
        self.writer.key(name)?;
        self.writer.u64(value)?;
        if value <= EXACT_MOST {
            return Ok(());
        }
        self.long_key(name, member::TEXT_ENDING)?;
        self.writer.quoted_u64(value)
    }

    // Four numbers, each under its name.
    pub(crate) fn four_numbers(
        &mut self,
        first: (&str, u64),
        second: (&str, u64),
        third: (&str, u64),
        fourth: (&str, u64),
    ) -> Result<(), AllocError>
        ensures { OnOk result (self.new ≡ self.old
            ++ (number_member first.entry.0.now first.entry.1 ++ (number_member second.entry.0.now second.entry.1
            ++ (number_member third.entry.0.now third.entry.1 ++ number_member fourth.entry.0.now fourth.entry.1)))) }
    {
        self.number(first.0, first.1)?;
        self.number(second.0, second.1)?;
        self.number(third.0, third.1)?;
        self.number(fourth.0, fourth.1)
    }

    // Octets as text, or in hex where they are not UTF-8.
    #[tactic(auto, using(crate::proofs::Texts::octets_facts))]
    pub(crate) fn octets(&mut self, name: &str, octets: &[u8]) -> Result<(), AllocError>
        ensures { OnOk result (self.new ≡ self.old ++ octets_member name.now octets.now) }
    {
        match str::from_utf8(octets) {
            Ok(value) => self.text(name, value),
            Err(_) => self.hex_octets(name, octets),
        }
    }

    // Octets that are not UTF-8, in hex.
    #[tactic(auto, unfolding(crate::specs::Members::hex_member))]
    fn hex_octets(&mut self, name: &str, octets: &[u8]) -> Result<(), AllocError>
        ensures { OnOk result (self.new ≡ self.old ++ hex_member (name.now ++ codes "_hex") octets.now) }
    {
        self.long_key(name, member::HEX_ENDING)?;
        self.hex_string(octets)
    }

    #[tactic(auto, unfolding(crate::specs::Members::hex_member))]
    pub(crate) fn hex(&mut self, name: &str, octets: &[u8]) -> Result<(), AllocError>
        ensures { OnOk result (self.new ≡ self.old ++ hex_member name.now octets.now) }
    {
        self.writer.key(name)?;
        self.hex_string(octets)
    }

    #[tactic(auto, unfolding(crate::specs::Members::moment_member))]
    pub(crate) fn moment(&mut self, name: &str, moment: Moment) -> Result<(), AllocError>
        ensures { OnOk result (self.new ≡ self.old ++ moment_member name.now moment) }
    {
        let value = moment.text(self.alloc)?;
        self.text(name, value.as_str())
    }

    // An array of octet strings, each in hex.
    #[tactic(auto, unfolding(crate::specs::Members::hexes_member))]
    pub(crate) fn hexes(&mut self, name: &str, values: &[Octets]) -> Result<(), AllocError>
        ensures { OnOk result (self.new ≡ self.old ++ hexes_member name.now values.now) }
    {
        self.writer.key(name)?;
        self.writer.begin_array()?;
        self.hex_strings(values)?;
        self.writer.end_array()
    }

    // An array of numbers.
    #[tactic(auto, unfolding(crate::specs::Members::numbers_member))]
    pub(crate) fn numbers(&mut self, name: &str, values: &[u64]) -> Result<(), AllocError>
        ensures { OnOk result (self.new ≡ self.old ++ numbers_member name.now values.now) }
    {
        self.writer.key(name)?;
        self.writer.begin_array()?;
        self.number_tokens(values)?;
        self.writer.end_array()
    }

    pub(crate) fn begin_object(&mut self, name: &str) -> Result<(), AllocError>
        ensures { OnOk result (self.new ≡ self.old ++ (key name.now ∷ begin_object ∷ [])) }
    {
        self.writer.key(name)?;
        self.writer.begin_object()
    }

    pub(crate) fn end_object(&mut self) -> Result<(), AllocError>
        ensures { OnOk result (self.new ≡ self.old ++ end_object ∷ []) }
    {
        self.writer.end_object()
    }

    fn hex_strings(&mut self, values: &[Octets]) -> Result<(), AllocError>
        ensures { OnOk result (self.new ≡ self.old ++ hex_strings values.now) }
    {
        for octets in values {
            self.hex_string(octets.as_slice())?;
        }
        Ok(())
    }

    fn number_tokens(&mut self, values: &[u64]) -> Result<(), AllocError>
        ensures { OnOk result (self.new ≡ self.old ++ number_tokens values.now) }
    {
        for value in values {
            self.number_token(*value)?;
        }
        Ok(())
    }

    fn number_token(&mut self, value: u64) -> Result<(), AllocError>
        ensures { OnOk result (self.new ≡ self.old ++ number_token value ∷ []) }
    {
        self.writer.u64(value)
    }

    fn hex_string(&mut self, octets: &[u8]) -> Result<(), AllocError>
        ensures { OnOk result (self.new ≡ self.old ++ hex_string octets.now ∷ []) }
    {
        let digits = hex::encode(self.alloc, octets)?;
        self.writer.string(digits.as_str())
    }

    // A key that is a name with an ending.
    fn long_key(&mut self, name: &str, ending: &str) -> Result<(), AllocError>
        ensures { OnOk result (self.new ≡ self.old ++ key (name.now ++ ending.now) ∷ []) }
    {
        let name = format!(in self.alloc; "{name}{ending}")?;
        self.writer.key(name.as_str())
    }
}
