//! The laws of rules and formats: what is read exactly is read in one way, with one fault.

ghost use Rattle.std.specs.Prelude.{◌≡◌, ℕ, Bool, not, List, ◌++◌, take};
ghost use Rattle.grammar.specs.Tokens.{address, is_digit};
ghost use Rattle.grammar.specs.TokenReading.{read_address};
ghost use Rattle.grammar.specs.Rules.{Rule};
ghost use Rattle.grammar.specs.TextReading.{Reader};
ghost use Rattle.grammar.specs.Exactness.{IsExact, HasFronts};
ghost use Rattle.grammar.specs.Texts.{read_whole, Says, IsSyntaxFault, IsDeepFault};
ghost use Rattle.grammar.specs.Formats.{Format};
ghost use Rattle.grammar.specs.Numbers.{four_octets};
ghost use Rattle.grammar.specs.FormatReading as messages;
ghost use Rattle.grammar.specs.Messages as messages_exactly;

/// A rule of texts for each number of groups that may be open at once, with its reader.
pub trait TextRule {
    /// What a text spells.
    ghost Value: { Type 0 };

    /// The rule, by the number of groups that may be open.
    ghost rule: { ℕ → Rule Value };

    /// Its reader, by the same number.
    ghost reader: { ℕ → Reader Value };

    /// The octets that may stand behind a text.
    ghost follow: { ℕ → Bool };

    /// The reader reads exactly what the rule spells.
    fn reads_exactly()
        ensures { (d : ℕ) → IsExact rule d follow (reader d) };

    /// Each front of what the rule spells is begun.
    fn has_fronts()
        ensures { (d : ℕ) → HasFronts (rule d) };
}

/// A format of messages, with its reader.
pub trait MessageFormat {
    /// What may be wrong with a message.
    ghost Fault: { Type 0 };

    /// What a message spells.
    ghost Value: { Type 0 };

    /// The format, check by check.
    ghost format: { Format Fault Value };

    /// Its reader.
    ghost reader: { messages.Reader Fault Value };

    /// The reader reads exactly what the format spells, and gives its first fault.
    fn reads_exactly()
        ensures { messages_exactly.IsExact format reader };
}

/// Addresses as four numbers with dots between them, behind which no digit stands.
pub struct AddressText;

impl TextRule for AddressText {
    ghost Value = { ℕ };

    ghost rule = { λ _. address };

    ghost reader = { λ _. read_address };

    ghost follow = { λ c. not (is_digit c) };

    fn reads_exactly() {}

    fn has_fronts() {}
}

/// Numbers of four octets, whose one fault is that there are fewer.
pub struct FourOctets;

impl MessageFormat for FourOctets {
    ghost Fault = { Unit {0} };

    ghost Value = { ℕ };

    ghost format = { four_octets tt };

    ghost reader = { messages.read_four_octets tt };

    fn reads_exactly() {}
}

/// A text spells one value at most.
pub fn texts_spell_one_value<T: TextRule>()
    ensures { (d : ℕ) (text : List ℕ) (x y : T.Value)
        → (T.rule d).Spells 0 text x → (T.rule d).Spells 0 text y → x ≡ y }
{
    T::reads_exactly();
}

/// A whole text is read as what it spells, or with the place where it is wrong.
pub fn texts_are_read<T: TextRule>()
    ensures { (d : ℕ) (text : List ℕ) → Says T.rule d text (read_whole (T.reader d) text) }
{
    T::reads_exactly();
}

/// A text is wrong at one place or too deep at one place, and never both.
pub fn places_of_faults_are_one<T: TextRule>()
    ensures wrong { (d : ℕ) (text : List ℕ) (m n : ℕ)
        → IsSyntaxFault T.rule d text m → IsSyntaxFault T.rule d text n → m ≡ n }
    ensures deep { (d : ℕ) (text : List ℕ) (m n : ℕ)
        → IsDeepFault T.rule d text m → IsDeepFault T.rule d text n → m ≡ n }
    ensures apart { (d : ℕ) (text : List ℕ) (m n : ℕ)
        → IsSyntaxFault T.rule d text m → IsDeepFault T.rule d text n → ⊥ }
{}

/// Each front of a text that spells something begins a text.
pub fn fronts_begin_texts<T: TextRule>()
    ensures { (d : ℕ) (text : List ℕ) (x : T.Value) (k : ℕ)
        → (T.rule d).Spells 0 text x → (T.rule d).Begins 0 (take k text) }
{
    T::has_fronts();
}

/// Of all fronts of the octets one alone spells something, and it spells one value.
pub fn messages_spell_one_value<T: MessageFormat>()
    ensures { (s a b c d : List ℕ) (x y : T.Value) → s ≡ a ++ b → s ≡ c ++ d
        → T.format.Spells a x → T.format.Spells c y → (a ≡ c) × (x ≡ y) }
{
    T::reads_exactly();
}

/// Where a front of the octets spells something, no check fails.
pub fn messages_spell_or_fail<T: MessageFormat>()
    ensures { (s a b : List ℕ) (x : T.Value) (e : T.Fault) → s ≡ a ++ b
        → T.format.Spells a x → T.format.Fails s e → ⊥ }
{
    T::reads_exactly();
}

/// There is one first fault.
pub fn first_faults_are_one<T: MessageFormat>()
    ensures { (s : List ℕ) (e f : T.Fault) → T.format.Fails s e → T.format.Fails s f → e ≡ f }
{
    T::reads_exactly();
}
