// The first numbers of variables, elements and messages.

ghost use Rattle.std.specs.Prelude.{◌≡◌, fold, slice_get};
ghost use Rattle.std.specs.Option.{option_copied};
ghost use Rattle.int_kinds.specs.Kind.{IsNumber};
ghost use Rattle.capl_meaning.specs.Initial.{declared_message, first_element, first_message, initial_items, constant_number, number_of_item, number_of_text, with_field_item, with_item};
ghost use Rattle.capl_meaning.specs.Constant.{first_number, known_before};
ghost use Rattle.capl_meaning.specs.Message.{signals_of_type};
ghost use Rattle.capl_meaning.specs.Store.{MessageRecord};
ghost use Rattle.check_sorts.specs.Constant.{AreConstantsOf};
ghost use Rattle.check_sorts.specs.Form.{signals_in, type_in};
ghost use Rattle.check_sorts.specs.Scope.{scope_in};
ghost use Rattle.type_starts.specs.Identifier.{HasShortIdentifier};
ghost use Rattle.type_starts.specs.Message.{IsMessage};

use crate::message::{Message, with_bytes, with_member};
use capl_tree::{Expr, Field, Init, Item};
use check_sorts::{Constants, DeclaredSignals, MessageType, Scope, member_named, text_in};
use int_kinds::{Kind, wrap};

/// Where an initialiser stands.
#[derive(Clone, Copy)]
pub(crate) struct Spot<'c, 'a, 'p> {
    /// The constants of the program.
    pub(crate) constants: &'c Constants,
    /// Where the variable is declared.
    pub(crate) scope: Scope<'a, 'p>,
    /// The token of its name.
    pub(crate) token: u32,
}

/// The number of a constant, 0 where it is none.
fn number_at(spot: &Spot, e: &Expr) -> i128
    requires { AreConstantsOf spot.now.scope.names.now spot.now.constants.now }
    ensures same { result ≡ constant_number (scope_in spot.now.scope) spot.now.token e.now }
    ensures number { IsNumber result }
{
    match spot.constants.constant_at(spot.scope, spot.token, e) {
        None => 0,
        Some(n) => n,
    }
}

/// The first number of a number variable of a kind.
pub(crate) fn first_number(spot: &Spot, kind: Kind, init: Option<&Init>) -> i128
    requires { AreConstantsOf spot.now.scope.names.now spot.now.constants.now }
    ensures { let s = scope_in spot.now.scope in
        result ≡ first_number (known_before s spot.now.token) s kind (option_copied init.entry) }
{
    match init {
        Some(Init::One(e)) => match spot.constants.constant_at(spot.scope, spot.token, e) {
            None => 0,
            Some(n) => wrap(kind, n),
        },
        _ => 0,
    }
}

/// The number of an element of an array of a kind, by its item.
fn number_of_item(spot: &Spot, kind: Kind, item: Option<&Item>) -> i128
    requires { AreConstantsOf spot.now.scope.names.now spot.now.constants.now }
    ensures { result ≡
        number_of_item (scope_in spot.now.scope) spot.now.token kind (option_copied item.entry) }
{
    match item {
        Some(Item::Plain(value)) => wrap(kind, number_at(spot, value)),
        _ => 0,
    }
}

/// The byte of a text by its number, 0 behind its end.
fn number_of_text(index: u32, text: Option<&[u8]>) -> i128
    ensures { result ≡ number_of_text index (option_copied text.entry) }
{
    match text {
        None => 0,
        Some(text) => match text.get(index as usize) {
            None => 0,
            Some(byte) => i128::from(*byte),
        },
    }
}

/// The item of a number, or None where there is none.
fn item_at(items: &[Item], index: u32) -> Option<&Item>
    ensures { option_copied result ≡ slice_get items.now index }
{
    items.get(index as usize)
}

/// The first number of an element of an array of a kind.
pub(crate) fn first_element(spot: &Spot, kind: Kind, init: Option<&Init>, index: u32) -> i128
    requires { AreConstantsOf spot.now.scope.names.now spot.now.constants.now }
    ensures { result ≡
        first_element (scope_in spot.now.scope) spot.now.token kind (option_copied init.entry) index }
{
    match init {
        None => 0,
        Some(Init::One(e)) => number_of_text(index, text_in(e)),
        Some(Init::Many { items, .. }) => {
            number_of_item(spot, kind, item_at(items.as_slice(), index))
        }
    }
}

/// The signals of a message variable, by its type.
fn signals_of_type(what: MessageType<'_>) -> DeclaredSignals<'_>
    ensures { signals_in result ≡ signals_of_type (type_in what.entry) }
{
    match what {
        MessageType::ByIdentifier(_) => DeclaredSignals::Unnamed,
        MessageType::ByName(message) => DeclaredSignals::Named(message),
    }
}

/// A message as it is declared.
fn declared_message(what: MessageType) -> Message
    requires { HasShortIdentifier (type_in what) }
    ensures { IsMessage result (declared_message (type_in what.entry)) }
{
    let (id, dlc) = match what {
        MessageType::ByIdentifier(id) => (id as u64, 8),
        MessageType::ByName(None) => (0, 8),
        MessageType::ByName(Some(message)) => (u64::from(message.id), u64::from(message.len)),
    };
    Message {
        id,
        dlc,
        rtr: 0,
        can: 1,
        payload: [0; 8],
    }
}

/// A message once a number is stored in a field, payload bytes or a signal.
fn with_field_item(
    spot: &Spot,
    signals: DeclaredSignals,
    field: &Field,
    n: i128,
    message: Message,
) -> Message
    requires constants { AreConstantsOf spot.now.scope.names.now spot.now.constants.now }
    requires number { IsNumber n }
    ensures { (m : MessageRecord) → IsMessage message m → IsMessage result
        (with_field_item (scope_in spot.now.scope) spot.now.token (signals_in signals.entry) field.now n m) }
{
    match field {
        Field::Named { name, .. } => with_member(member_named(signals, name.bytes()), n, message),
        Field::Bytes { kind, index, .. } => {
            with_bytes(*kind, number_at(spot, index.get()), n, message)
        }
    }
}

/// A message once an item is written.
fn with_item(spot: &Spot, signals: DeclaredSignals, item: &Item, message: Message) -> Message
    requires { AreConstantsOf spot.now.scope.names.now spot.now.constants.now }
    ensures { (m : MessageRecord) → IsMessage message m → IsMessage result
        (with_item (scope_in spot.now.scope) spot.now.token (signals_in signals.entry) m item.now) }
{
    match item {
        Item::Plain(_) => message,
        Item::Set { field, value } => {
            with_field_item(spot, signals, field, number_at(spot, value), message)
        }
    }
}

/// A message once items are written, one after another.
fn with_items(spot: &Spot, signals: DeclaredSignals, items: &[Item], message: Message) -> Message
    requires { AreConstantsOf spot.now.scope.names.now spot.now.constants.now }
    ensures { (m : MessageRecord) → IsMessage message m → IsMessage result
        (fold (with_item (scope_in spot.now.scope) spot.now.token (signals_in signals.entry)) m items.now) }
{
    let mut written = message;
    for item in items {
        written = with_item(spot, signals, item, written);
    }
    written
}

/// The items of an initialiser.
fn items_of(init: Option<&Init>) -> &[Item]
    ensures { result.now ≡ initial_items (option_copied init.entry) }
{
    match init {
        Some(Init::Many { items, .. }) => items.as_slice(),
        _ => &[],
    }
}

/// The first value of a message.
pub(crate) fn first_message(spot: &Spot, what: MessageType, init: Option<&Init>) -> Message
    requires constants { AreConstantsOf spot.now.scope.names.now spot.now.constants.now }
    requires identifier { HasShortIdentifier (type_in what) }
    ensures { IsMessage result (first_message (scope_in spot.now.scope)
        spot.now.token (type_in what.entry) (option_copied init.entry)) }
{
    let declared = declared_message(what);
    with_items(spot, signals_of_type(what), items_of(init), declared)
}
