// The quantities of a state (02, request 2), one a record after the first. A place says which quantity: its record's word by the
// variant, and the record's indices in their order.
use model::quantity::{Level, Page, Processor};

#[derive(Clone, Copy)]
pub enum Place {
    // `enabled` of a level above 0: is it enabled for the partition?
    PartitionEnabled(Level),
    // `mbec`: has the partition MBEC for the level?
    Mbec(Level),
    // `config`: the configuration word
    Config(Level),
    // `active`: the processor's active level
    Active(Processor),
    // `shared`: a shared register
    Shared(Processor, u64),
    // `reg`: a private register of a level
    Register(Processor, Level, u64),
    // `tpr`: the TPR class
    Tpr(Processor, Level),
    // `pend`: one of four words of pending vectors
    Pending(Processor, Level, u64),
    // `enabled` of a processor: is the level enabled on it?
    Enabled(Processor, Level),
    // `secure`: the configuration that the level holds of a lower one, which is named last
    Secure(Processor, Level, Level),
    // `reason`, `from`, `rax`, `rcx`: the control record
    Reason(Processor, Level),
    From(Processor, Level),
    Rax(Processor, Level),
    Rcx(Processor, Level),
    // `word`: the word of a page
    Word(Page),
    // `mask`: a level's mask of the page
    Mask(Page, Level),
    // `cri`: the level's intercept control word (02, request 6)
    Intercepts(Processor, Level),
    // `crm` with 0, and with 4: its masks for writes of CR0 and of CR4 (02, request 6)
    Cr0Mask(Processor, Level),
    Cr4Mask(Processor, Level),
}
