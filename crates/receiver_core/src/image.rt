//! The file that is handed to the file store.
use crate::receiver::ReceiverCore;
use cfdp_types::{Image, Octets};
use pdu_values::Metadata;
use std::alloc::AllocError;
use txn_events::Refusal;

impl ReceiverCore {
    ghost use Rattle.std.specs.Prelude.{◌≡◌, IfOk, IfErr, List, Ok};
    ghost use Rattle.receiver_table.specs.Reception.{Entry, state_of};
    ghost use Rattle.receiver_table.specs.Answers.{octets_from};
    ghost use Rattle.receiver_table.specs.Images.{image_at};
    ghost use Rattle.receiver_parts.specs.ReceivedFile.{received_of};
    ghost use Rattle.receiver_core.specs.Core.{shown, StandsAfter, IsWhy};

    // The file with the names in the Metadata and the octets below `size`.
    fn file(&self, metadata: &Metadata, size: u32) -> Result<Image, AllocError>
        ensures { IfOk result (λ image. image ≡ record {
          source_name = metadata.now.source_name;
          destination_name = metadata.now.destination_name;
          octets = octets_from (received_of self.now.file) 0 size;
        }) }
    {
        Ok(Image {
            source_name: metadata.source_name.copy()?,
            destination_name: metadata.destination_name.copy()?,
            octets: Octets::from_vec(self.file.below(size)?)?,
        })
    }

    // The file of the deposit with this stamp, in terms of the present state.
    fn image_now(&self, stamp: u32) -> Result<Image, Refusal>
        ensures image { IfOk result (λ image. image_at (shown self.now) stamp ≡ Ok image) }
        ensures refused { IfErr result (λ why. IsWhy (image_at (shown self.now) stamp) why) }
    {
        if !self.control.waits_for(stamp) {
            return Err(Refusal::StaleStored);
        }
        let Some(metadata) = &self.metadata else {
            return Err(Refusal::StaleStored);
        };
        let Some(eof) = self.control.eof else {
            return Err(Refusal::StaleStored);
        };
        let image = self.file(metadata, eof.size as u32)?;
        Ok(image)
    }

    /// The file of the waiting deposit, for the file store. `StaleStored` if no deposit with this stamp is waiting.
    pub fn image(&self, stamp: u32) -> Result<Image, Refusal>
        ensures image { (log : List Entry) → StandsAfter self.now log → IfOk result
            (λ image. image_at (state_of log) stamp ≡ Ok image) }
        ensures refused { (log : List Entry) → StandsAfter self.now log → IfErr result
            (λ why. IsWhy (image_at (state_of log) stamp) why) }
    {
        self.image_now(stamp)
    }
}
