// Tests of what stands between the program and the operating system: files and saves, standard output, and the keys of a reader.

#[cfg(test)]
mod keys;
#[cfg(test)]
mod outputs;
#[cfg(test)]
mod saves;
