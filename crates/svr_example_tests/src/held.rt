// Lists that grow and values that are let go through functions over any type.

/// One more in a list. Where there is no memory it is left out, and what is made of the list is another.
pub(crate) fn added<T: Drop>(list: &mut Vec<T>, item: T) {
    let _unmet = list.push(item).is_err();
}

/// A text behind another. Where there is no memory it is left out, and the text is another.
pub(crate) fn joined(text: &mut Vec<u8>, bytes: &[u8]) {
    let _unmet = text.extend_from_slice(bytes).is_err();
}

/// Lets go what was held, in the place of a function that knows what it is.
pub(crate) fn let_go<T: Drop>(_held: T) {}
