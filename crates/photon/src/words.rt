// What the words ask of the state directory, as far as main has to know.
use directory_store::Way;

/// What a state directory is taken for by the command of these words, the first of which is the program's name.
pub fn way_of(words: &[String]) -> Way {
    match words.get(1) {
        Some(word) if word.as_str() == "verify" => Way::Look,
        Some(word) if word.as_str() == "reshard" => Way::Change,
        _ => Way::Run,
    }
}

/// The value of an option, if it is given.
pub fn value_of<'a>(words: &'a [String], option: &str) -> Option<&'a str> {
    for at in 0..words.len() {
        let word = words.get(at)?.as_str();
        if word == option {
            return Some(words.get(at.saturating_add(1))?.as_str());
        }
        if let Some(rest) = word.strip_prefix(option) {
            if let Some(value) = rest.strip_prefix("=") {
                return Some(value);
            }
        }
    }
    None
}
