//! The grammars of texts and of messages: rules, formats, readers, and the laws that join them.
#![tactic(auto)]

mod laws;

pub use laws::{
    AddressText, FourOctets, MessageFormat, TextRule, first_faults_are_one, fronts_begin_texts,
    messages_spell_one_value, messages_spell_or_fail, places_of_faults_are_one, texts_are_read,
    texts_spell_one_value,
};
