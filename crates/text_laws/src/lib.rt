//! Laws of texts: the octets that are written name the replies, and lines and policies have the same tokens. The functions
//! have empty bodies, and their contracts are the laws.
#![tactic(auto)]

ghost use Rattle.text_laws.specs.FieldTokens.{FieldsAreTokens};
ghost use Rattle.text_laws.specs.Naming.{LegalRulesAreOfNoPort, OutputsNameReplies, ReadEventsAreWellFormed, RightRulesAreOfNoPort, TextsNameReplies, WritableTextsNameReplies};

/// For given lines, two lists with a reply for each line and with the same text are the same list, where the numbers of the one
/// have at most 63 digits and its addresses 32 bits, and no rule's cube is of a port.
pub fn writable_texts_name_replies()
    ensures { WritableTextsNameReplies }
{}

/// So the text of legal replies to lines that can be written names them: no other legal replies have it. Asked is only that the
/// numbers of their rules' actions have at most 63 digits, and the addresses 32 bits, as all values of the program have.
pub fn texts_name_replies()
    ensures { TextsNameReplies }
{}

/// The lines that any octets are read as can be written.
pub fn read_events_are_well_formed()
    ensures { ReadEventsAreWellFormed }
{}

/// So, of any octets, what is written for their lines names the replies to them.
pub fn outputs_name_replies()
    ensures { OutputsNameReplies }
{}

/// Where the policies passed isolation, the cubes of rules that are right for a part are of no port.
pub fn right_rules_are_of_no_port()
    ensures { RightRulesAreOfNoPort }
{}

/// In a legal run no rule of a reply has a cube of a port.
pub fn legal_rules_are_of_no_port()
    ensures { LegalRulesAreOfNoPort }
{}

/// A field of a line is read as a name, a number or an address exactly where the token of policies and export rules spells it.
pub fn fields_are_tokens()
    ensures { FieldsAreTokens }
{}
