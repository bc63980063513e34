ghost use Rattle.std.specs.Prelude.{◌≡◌, ◌↔◌, ◌⊎◌, ℕ, Bool, List, Ok, Err};
ghost use Rattle.msg_template.specs.Actions.{action_at};
ghost use Rattle.msg_template.specs.declared.action.Action.{Action};
ghost use Rattle.msg_template.specs.declared.fault.TemplateFault.{TemplateFault};
ghost use Rattle.msg_template.specs.declared.fault.TemplateFault.TheVariants as faults;
ghost use Rattle.msg_template.specs.declared.template.Part.{Part};
ghost use Rattle.msg_template.specs.declared.template.TheConstants.{TEMPLATE_LIMIT};
ghost use Rattle.msg_template.specs.Reading.{Reads, Refuses};
ghost use Rattle.msg_template.specs.Rows.{DigitAtFirst, FieldAndNoTag, IdAndLevel, IdInAnId, NameAndGroup, NoAction, NoSpaces, NotListed, SpaceInAKey, SpacesAround, TimeInDigits, TwoDimensions, TwoSpacesBeforeAKey};
ghost use Rattle.msg_template.specs.Spellings.{IsAction, IsOfOtherForm, IsUnlisted, Spells};

/// The law of templates: a text is read as one list of parts or has one first fault, and not both.
pub fn one_meaning()
    ensures parts { (of_id : Bool) (text : List ℕ) (ps qs : List Part) →
        Reads of_id text ps → Reads of_id text qs → ps ≡ qs }
    ensures fault { (of_id : Bool) (text : List ℕ) (at : ℕ) (f g : TemplateFault) →
        Refuses of_id text at f → Refuses of_id text at g → f ≡ g }
    ensures apart { (of_id : Bool) (text : List ℕ) (at : ℕ) (ps : List Part) (f : TemplateFault) →
        Reads of_id text ps → Refuses of_id text at f → ⊥ }
{}

/// A text that is read as parts is their spelling: words as they are, and each action between braces, with
/// spaces around it.
pub fn parts_are_spelled()
    ensures { (of_id : Bool) (text : List ℕ) (ps : List Part) →
        Reads of_id text ps → Spells text ps }
{}

/// What stands between braces is an action exactly where it is its spelling, with any spaces around it, and
/// the action is allowed in such a template. Where it is none there is one of two faults: `Field` for a dot
/// and a name that is not listed, or not allowed, and `Action` for any other form.
pub fn actions_are_read_by_form()
    ensures action { (of_id : Bool) (at : ℕ) (body : List ℕ) (action : Action) →
        (action_at of_id at body ≡ Ok action) ↔ IsAction of_id body action }
    ensures field { (of_id : Bool) (at : ℕ) (body : List ℕ) →
        (action_at of_id at body ≡ Err (faults.Field at)) ↔ IsUnlisted of_id body }
    ensures other_form { (of_id : Bool) (at : ℕ) (body : List ℕ) →
        (action_at of_id at body ≡ Err (faults.Action at)) ↔ IsOfOtherForm of_id body }
    ensures no_other { (of_id : Bool) (at : ℕ) (body : List ℕ) (f : TemplateFault) →
        action_at of_id at body ≡ Err f → (f ≡ faults.Action at) ⊎ (f ≡ faults.Field at) }
{}

/// Examples of what stands between braces, and of what templates are filled to.
pub fn examples_of_templates()
    ensures spaces_around { SpacesAround }
    ensures no_spaces { NoSpaces }
    ensures space_in_a_key { SpaceInAKey }
    ensures two_spaces_before_a_key { TwoSpacesBeforeAKey }
    ensures id_in_an_id { IdInAnId }
    ensures not_listed { NotListed }
    ensures digit_at_first { DigitAtFirst }
    ensures no_action { NoAction }
    ensures name_and_group { NameAndGroup }
    ensures two_dimensions { TwoDimensions }
    ensures id_and_level { IdAndLevel }
    ensures field_and_no_tag { FieldAndNoTag }
    ensures time_in_digits { TimeInDigits }
{}

/// The limit of templates and of what they are filled to, as a number of bytes.
pub fn limit_is_a_number()
    ensures { TEMPLATE_LIMIT ≡ 65536 }
{}
