ghost use Rattle.std.specs.Prelude.{IfOk, option_map, string_bytes};
ghost use Rattle.fault_texts.specs.Explained.{IsExplained};

use crate::place_of;
use crate::sentence::push_sentence;
use config_reading::ConfigFault;
use entity_config::read_config;
use std::alloc::{AllocError, Global};

/// Says why a configuration's text is refused, in one line without a line feed; None if it isn't. An error means that
/// memory ran out.
pub fn explained(alloc: Global, text: &[u8]) -> Result<Option<String>, AllocError>
    ensures { IfOk result (λ told. IsExplained text.now (option_map string_bytes told)) }
{
    match str::from_utf8(text) {
        Ok(text) => explained_text(alloc, text),
        Err(error) => {
            let offset = error.valid_up_to();
            Ok(Some(format!(in alloc; "octet {offset} is not UTF-8")?))
        }
    }
}

// Says why a text is refused.
fn explained_text(alloc: Global, text: &str) -> Result<Option<String>, AllocError>
    ensures { IfOk result (λ told. IsExplained text.now (option_map string_bytes told)) }
{
    match read_config(alloc, text) {
        Ok(_) => Ok(None),
        Err(ConfigFault::NoMemory) => Err(AllocError),
        Err(fault) => Ok(Some(sentence(alloc, text, fault)?)),
    }
}

// The sentence on a fault.
fn sentence(alloc: Global, text: &str, fault: ConfigFault) -> Result<String, AllocError> {
    let place = place_of(alloc, text, fault)?;
    let mut sentence = String::new(alloc);
    push_sentence(&mut sentence, &place, fault)?;
    Ok(sentence)
}
